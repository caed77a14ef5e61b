//! The filters that stand for anybody.
ghost use Rattle.std.specs.Prelude.{◌≡◌, ◌==◌, ◌&&◌, ℕ, List, None, Some, IfOk, OnOk, OnErr, is_some};
ghost use Rattle.std.specs.Prelude.{if◌then◌else◌};
ghost use Rattle.sng_fan.specs.Subscriptions.{stands};
ghost use Rattle.sng_standing.specs.Tree.{qos_at};
ghost use Rattle.sng_standing.specs.Standing.{SaysSameAt, MovesAt, IsHeldBy, IsHeldBeside};
ghost use Rattle.sng_standing.specs.Holders.{AreHolders, AreClients};

use crate::adding::add_at;
use crate::asking::{clients_of, node_at};
use crate::ending::end_at;
use crate::finding::find;
use crate::found::holders_of;
use crate::{Holder, Node};
use sng_fan::Held;
use sng_text::{Qos, TopicFilter, TopicName};
use std::alloc::{AllocError, Global};
use std::marker::Model;

/// Which filters stand for which clients, each at which QoS. A client is a number. Contracts see who holds
/// what, by `qos_at`.
#[derive(Drop)]
pub struct Standing {
    root: Node,
}

impl Model for Standing {
    ghost use Rattle.std.specs.Coded.{codes};
    ghost use Rattle.sng_standing.specs.contracts.node.Node as node;
    ghost use Rattle.sng_standing.specs.declared.node.Node.{Node};

    ghost Value = { Node };

    ghost coded = { Prim.hlevel (codes, node.the_row.coded) };

    ghost use Rattle.sng_standing.specs.Standing.{HasFilters};

    ghost view = { λ s. s.root };

    ghost invariant = { λ s. HasFilters s.root };
}

impl Standing {
    /// Nothing stands. Takes no memory.
    pub fn new(alloc: Global) -> Standing
        ensures { (client : ℕ) (filter : List ℕ) → qos_at result client filter ≡ None }
    {
        Standing {
            root: Node::new(alloc),
        }
    }

    /// Lets the filter stand for the client at this QoS, also where it stood at another. An `Err` is a failed
    /// allocation; nothing changes then.
    pub fn add(
        &mut self,
        alloc: Global,
        client: usize,
        filter: &TopicFilter,
        qos: Qos,
    ) -> Result<(), AllocError>
        ensures ok { OnOk result (MovesAt self.old self.new client filter.now (Some qos)) }
        ensures err { OnErr result (SaysSameAt self.old self.new) }
    {
        add_at(&mut self.root, alloc, client, Some(filter.text()), qos)
    }

    /// Ends the subscription of the client to the filter, and returns whether there was one. Takes no memory.
    pub fn end(&mut self, client: usize, filter: &TopicFilter) -> bool
        ensures stood { result ≡ is_some (qos_at self.old client filter.now) }
        ensures rest { MovesAt self.old self.new client filter.now None }
    {
        end_at(&mut self.root, client, Some(filter.text()))
    }

    /// Ends the subscriptions of the client to these filters, as all that stand for it. Takes no memory.
    pub fn end_client(&mut self, client: usize, held: &[Held])
        ensures { (n : ℕ) (filter : List ℕ) → qos_at self.new n filter
            ≡ (if (client == n) && stands held.now filter then None else qos_at self.old n filter) }
    {
        for one in held {
            self.end(client, &one.filter);
        }
    }

    /// At which QoS the client holds the filter, if it does. Takes no memory.
    pub fn qos(&self, client: usize, filter: &TopicFilter) -> Option<Qos>
        ensures { result ≡ qos_at self.now client filter.now }
    {
        let node = node_at(&self.root, Some(filter.text()))?;
        node.here.get(&client).copied()
    }

    /// Whether anybody holds the filter. Takes no memory.
    pub fn is_held(&self, filter: &TopicFilter) -> bool
        ensures { IsHeldBy (λ n. qos_at self.now n filter.now) result }
    {
        match node_at(&self.root, Some(filter.text())) {
            None => false,
            Some(node) => node.is_held(),
        }
    }

    /// Whether anybody but this client holds the filter. Takes no memory.
    pub fn is_held_by_others(&self, client: usize, filter: &TopicFilter) -> bool
        ensures { IsHeldBeside (λ n. qos_at self.now n filter.now) client result }
    {
        match node_at(&self.root, Some(filter.text())) {
            None => false,
            Some(node) => node.is_held_by_others(client),
        }
    }

    /// The clients that hold the filter, in order of their numbers, each once. Only memory can fail.
    pub fn clients(&self, alloc: Global, filter: &TopicFilter) -> Result<Vec<usize>, AllocError>
        ensures { IfOk result (λ list. AreClients self.now filter.now list.items) }
    {
        match node_at(&self.root, Some(filter.text())) {
            None => Ok(Vec::new(alloc)),
            Some(node) => clients_of(alloc, &node.here),
        }
    }

    /// Leaves in the list the clients that hold a filter which matches the name, in order of their numbers,
    /// each once and with the greatest QoS among its filters that match. The list keeps its room. Only memory
    /// can fail, and an `Err` may leave any list.
    pub fn holders(
        &self,
        alloc: Global,
        name: &TopicName,
        list: &mut Vec<Holder>,
    ) -> Result<(), AllocError>
        ensures { OnOk result (AreHolders self.now name.now list.new.items) }
    {
        let mut found = Vec::new(alloc);
        find(&self.root, name.text(), &mut found)?;
        holders_of(alloc, found.as_slice(), list)
    }
}
