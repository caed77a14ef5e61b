//! Who holds one filter.
ghost use Rattle.std.specs.Prelude.{◌≡◌, IfOk};
ghost use Rattle.std.specs.BTreeMap.{keys, IsOrdered};
ghost use Rattle.std.specs.Option.{option_copied};
ghost use Rattle.std.specs.Ordering.{nat_cmp};
ghost use Rattle.sng_text.specs.Levels.{levels_left};
ghost use Rattle.sng_standing.specs.Tree.{node_left, qos_here};
ghost use Rattle.sng_standing.specs.Standing.{IsHeldBy, IsHeldBeside};

use crate::Node;
use sng_text::{Qos, split_level};
use std::alloc::{AllocError, Global};
use std::collections::BTreeMap;

/// The node where the filter of these levels below this one ends, where there is one.
pub(crate) fn node_at<'a>(node: &'a Node, path: Option<&[u8]>) -> Option<&'a Node>
    ensures { option_copied result ≡ node_left node.now (levels_left path.entry) }
{
    let Some(path) = path else {
        return Some(node);
    };
    let (level, rest) = split_level(path);
    match node.below.get(level) {
        None => None,
        Some(child) => node_at(child, rest),
    }
}

impl Node {
    /// Whether anybody holds the filter that ends here.
    pub(crate) fn is_held(&self) -> bool
        ensures { IsHeldBy (qos_here self.now) result }
    {
        self.here.len() > 0
    }

    /// Whether anybody but this client holds the filter that ends here.
    pub(crate) fn is_held_by_others(&self, client: usize) -> bool
        ensures { IsHeldBeside (qos_here self.now) client result }
    {
        let own = usize::from(self.here.contains_key(&client));
        self.here.len() > own
    }
}

/// The numbers of the clients that hold a filter, in order.
pub(crate) fn clients_of(
    alloc: Global,
    holders: &BTreeMap<usize, Qos>,
) -> Result<Vec<usize>, AllocError>
    ensures list { IfOk result (λ list. list.items ≡ keys holders.now) }
    ensures ordered { IsOrdered nat_cmp holders.now }
{
    let mut list = Vec::with_capacity(alloc, holders.len())?;
    for client in holders.keys() {
        list.push(*client)?;
    }
    Ok(list)
}
