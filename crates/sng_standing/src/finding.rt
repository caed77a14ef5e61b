//! Who holds a filter that matches a name (MQTT 3.1.1, 4.7).
ghost use Rattle.std.specs.Prelude.{◌≡◌, ℕ, [], OnOk};
ghost use Rattle.sng_text.specs.Levels.{levels_left};
ghost use Rattle.sng_standing.specs.Greatest.{joined, greatest_left, greatest_at, rest_here};
ghost use Rattle.sng_standing.specs.Found.{best_of};

use crate::Node;
use crate::found::reach;
use sng_text::matching::is_reserved;
use sng_text::{Qos, split_level};
use std::alloc::AllocError;
use std::collections::BTreeMap;

/// Finds those who hold a filter in the tree that matches the name. No filter that begins with a wildcard
/// matches a name that begins with `$` (4.7.2).
pub(crate) fn find<'a>(
    root: &'a Node,
    name: &[u8],
    found: &mut Vec<&'a BTreeMap<usize, Qos>>,
) -> Result<(), AllocError>
    ensures { OnOk result ((n : ℕ) → best_of found.new.items n
        ≡ joined (best_of found.old.items n) (greatest_at root.now n name.now)) }
{
    if !is_reserved(name) {
        return walk(root, Some(name), found);
    }
    let (level, rest) = split_level(name);
    if let Some(child) = root.below.get(level) {
        walk(child, rest, found)?;
    }
    Ok(())
}

/// Finds those below the node that hold a filter which matches the levels of a name that are left.
fn walk<'a>(
    node: &'a Node,
    name: Option<&[u8]>,
    found: &mut Vec<&'a BTreeMap<usize, Qos>>,
) -> Result<(), AllocError>
    ensures { OnOk result ((n : ℕ) → best_of found.new.items n
        ≡ joined (best_of found.old.items n) (greatest_left node.now n (levels_left name.entry))) }
{
    let Some(name) = name else {
        return take_end(node, found);
    };
    let (level, rest) = split_level(name);
    if let Some(child) = node.below.get(level) {
        walk(child, rest, found)?;
    }
    if let Some(child) = node.below.get([b'+'].as_slice()) {
        walk(child, rest, found)?;
    }
    take_rest(node, found)
}

/// Finds those who hold a filter that ends here, or goes on with `#`, as no level of the name is left.
fn take_end<'a>(node: &'a Node, found: &mut Vec<&'a BTreeMap<usize, Qos>>) -> Result<(), AllocError>
    ensures { OnOk result ((n : ℕ) → best_of found.new.items n
        ≡ joined (best_of found.old.items n) (greatest_left node.now n [])) }
{
    reach(&node.here, found)?;
    take_rest(node, found)
}

/// Finds those who hold the filter that goes on with `#` here. It takes the levels that are left, and none
/// (4.7.1.2).
fn take_rest<'a>(
    node: &'a Node,
    found: &mut Vec<&'a BTreeMap<usize, Qos>>,
) -> Result<(), AllocError>
    ensures { OnOk result ((n : ℕ) → best_of found.new.items n
        ≡ joined (best_of found.old.items n) (rest_here node.now n)) }
{
    match node.below.get([b'#'].as_slice()) {
        None => Ok(()),
        Some(child) => reach(&child.here, found),
    }
}
