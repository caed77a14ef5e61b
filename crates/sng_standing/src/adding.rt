//! How a filter comes to stand (MQTT 3.1.1, 3.8.4).
ghost use Rattle.std.specs.Prelude.{Some, IfOk, OnOk, OnErr};
ghost use Rattle.sng_text.specs.Levels.{levels_left};
ghost use Rattle.sng_standing.specs.Standing.{IsOne, Moves, SaysSame};

use crate::Node;
use sng_text::{Qos, split_level};
use std::alloc::{AllocError, Global};

/// Lets the filter of these levels below the node stand for the client at this QoS. All that is new is made
/// first, and hung in by one insertion: an `Err` is a failed allocation, and nothing stands otherwise then.
pub(crate) fn add_at(
    node: &mut Node,
    alloc: Global,
    client: usize,
    path: Option<&[u8]>,
    qos: Qos,
) -> Result<(), AllocError>
    ensures ok { OnOk result (Moves node.old node.new client (levels_left path.entry) (Some qos)) }
    ensures err { OnErr result (SaysSame node.old node.new) }
{
    let Some(path) = path else {
        node.here.insert(client, qos)?;
        return Ok(());
    };
    let (level, rest) = split_level(path);
    if let Some(child) = node.below.get_mut(level) {
        return add_at(child, alloc, client, rest, qos);
    }
    let child = branch(alloc, client, rest, qos)?;
    let level = Vec::from_slice(alloc, level)?;
    node.below.insert(level, child)?;
    Ok(())
}

/// A node below which the filter of these levels stands for the client, and nothing else.
fn branch(alloc: Global, client: usize, path: Option<&[u8]>, qos: Qos) -> Result<Node, AllocError>
    ensures { IfOk result (λ node. IsOne node client (levels_left path.entry) qos) }
{
    let mut node = Node::new(alloc);
    let Some(path) = path else {
        node.here.insert(client, qos)?;
        return Ok(node);
    };
    let (level, rest) = split_level(path);
    let child = branch(alloc, client, rest, qos)?;
    let level = Vec::from_slice(alloc, level)?;
    node.below.insert(level, child)?;
    Ok(node)
}
