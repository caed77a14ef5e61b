//! The filters that were found to match, and the clients that hold them, each with its greatest QoS.
ghost use Rattle.std.specs.Prelude.{◌≡◌, ◌==◌, ◌∷◌, [], ℕ, Some, IfSome, OnOk, IfOk, if◌then◌else◌, map};
ghost use Rattle.std.specs.BTreeMap.{get, IsOrdered};
ghost use Rattle.std.specs.Ordering.{nat_cmp};
ghost use Rattle.sng_standing.specs.Greatest.{joined};
ghost use Rattle.sng_standing.specs.Found.{best_of, AreFound};
ghost use Rattle.sng_standing.specs.Holders.{holder_of};

use crate::Holder;
use sng_fan::greatest::greater;
use sng_text::Qos;
use std::alloc::{AllocError, Global};
use std::collections::BTreeMap;

/// One filter more matches, which these hold.
#[tactic(auto, using(crate::proofs::Joins::best_behind))]
pub(crate) fn reach<'a>(
    holders: &'a BTreeMap<usize, Qos>,
    found: &mut Vec<&'a BTreeMap<usize, Qos>>,
) -> Result<(), AllocError>
    ensures { OnOk result ((n : ℕ) → best_of found.new.items n
        ≡ joined (best_of found.old.items n) (get nat_cmp holders.now n)) }
{
    found.push(holders)?;
    Ok(())
}

/// Leaves in the list those who hold one of these filters, in order of their numbers, each once and with its
/// greatest QoS. Those who hold one filter are in order already.
pub(crate) fn holders_of(
    alloc: Global,
    found: &[&BTreeMap<usize, Qos>],
    list: &mut Vec<Holder>,
) -> Result<(), AllocError>
    ensures { OnOk result (AreFound found.now list.new.items) }
{
    match only(found) {
        Some(one) => put_list(one, list),
        None => put_list(&together(alloc, found)?, list),
    }
}

/// The only one of these, where it is alone.
fn only<'a>(found: &[&'a BTreeMap<usize, Qos>]) -> Option<&'a BTreeMap<usize, Qos>>
    ensures { IfSome result (λ one. found.now ≡ one ∷ []) }
{
    match found {
        [one] => Some(*one),
        _ => None,
    }
}

/// Those who hold one of these filters.
fn together(
    alloc: Global,
    found: &[&BTreeMap<usize, Qos>],
) -> Result<BTreeMap<usize, Qos>, AllocError>
    ensures { IfOk result (λ all. (n : ℕ) → get nat_cmp all n ≡ best_of found.now n) }
{
    let mut all = BTreeMap::new(alloc);
    for holders in found {
        gather(*holders, &mut all)?;
    }
    Ok(all)
}

/// One filter more of the client matches, at this QoS.
fn raise(found: &mut BTreeMap<usize, Qos>, client: usize, qos: Qos) -> Result<(), AllocError>
    ensures { OnOk result ((n : ℕ) → get nat_cmp found.new n ≡ (if client == n
        then joined (get nat_cmp found.old n) (Some qos)
        else get nat_cmp found.old n)) }
{
    match found.get_mut(&client) {
        Some(kept) => *kept = greater(*kept, qos),
        None => {
            found.insert(client, qos)?;
        }
    }
    Ok(())
}

/// Adds those who hold one filter more.
fn gather(
    holders: &BTreeMap<usize, Qos>,
    found: &mut BTreeMap<usize, Qos>,
) -> Result<(), AllocError>
    ensures { OnOk result ((n : ℕ) → get nat_cmp found.new n
        ≡ joined (get nat_cmp found.old n) (get nat_cmp holders.now n)) }
{
    for (client, qos) in holders {
        raise(found, *client, *qos)?;
    }
    Ok(())
}

/// Leaves in the list those that were found, in order of their numbers, in place of what it held.
fn put_list(found: &BTreeMap<usize, Qos>, list: &mut Vec<Holder>) -> Result<(), AllocError>
    ensures list { OnOk result (list.new.items ≡ map holder_of found.now.entries) }
    ensures ordered { IsOrdered nat_cmp found.now }
{
    list.clear();
    list.reserve(found.len())?;
    for (client, qos) in found {
        list.push(Holder {
            client: *client,
            qos: *qos,
        })?;
    }
    Ok(())
}
