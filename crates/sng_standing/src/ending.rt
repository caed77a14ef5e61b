//! How a filter ceases to stand (MQTT 3.1.1, 3.10.4).
ghost use Rattle.std.specs.Prelude.{◌≡◌, None, is_some};
ghost use Rattle.sng_text.specs.Levels.{levels_left};
ghost use Rattle.sng_standing.specs.Tree.{qos_left};
ghost use Rattle.sng_standing.specs.Standing.{Moves};

use crate::Node;
use sng_text::split_level;

/// Ends the subscription of the client to the filter of these levels below the node, and returns whether
/// there was one. A node that nobody needs any more goes.
pub(crate) fn end_at(node: &mut Node, client: usize, path: Option<&[u8]>) -> bool
    ensures stood { result ≡ is_some (qos_left node.old client (levels_left path.entry)) }
    ensures moved { Moves node.old node.new client (levels_left path.entry) None }
{
    let Some(path) = path else {
        return node.here.remove(&client).is_some();
    };
    let (level, rest) = split_level(path);
    let Some(child) = node.below.get_mut(level) else {
        return false;
    };
    let stood = end_at(child, client, rest);
    if child.is_idle() {
        node.below.remove(level);
    }
    stood
}
