//! One node of the tree: a filter, or the beginning of some (MQTT 3.1.1, 4.7.1.1).
ghost use Rattle.std.specs.Prelude.{◌≡◌, true};
ghost use Rattle.sng_standing.specs.Tree.{is_idle};

use sng_text::Qos;
use std::alloc::Global;
use std::collections::BTreeMap;

/// What stands at some levels and below them. A wildcard is a level as any other here: `+` and `#` have nodes
/// of their own.
#[derive(Drop)]
pub struct Node {
    /// Who holds the filter that ends here, at which QoS.
    pub(crate) here: BTreeMap<usize, Qos>,
    /// The nodes that are one level further down, by that level.
    pub(crate) below: BTreeMap<Vec<u8>, Node>,
}

impl Node {
    /// Nobody holds anything here or below. Takes no memory.
    pub(crate) fn new(alloc: Global) -> Node
        ensures { is_idle result ≡ true }
    {
        Node {
            here: BTreeMap::new(alloc),
            below: BTreeMap::new(alloc),
        }
    }

    /// Whether nobody holds the filter that ends here, and no node is below.
    pub(crate) fn is_idle(&self) -> bool
        ensures { result ≡ is_idle self.now }
    {
        self.here.is_empty() && self.below.is_empty()
    }
}
