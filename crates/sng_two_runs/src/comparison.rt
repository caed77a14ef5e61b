//! Two runs of the gateway, as one client sees them.
ghost use Rattle.std.specs.Prelude.{◌≡◌, ◌↔◌, true, List, IfOk, IsTrue};
ghost use Rattle.sng_book.specs.declared.row.Row.{Row};
ghost use Rattle.sng_isolation.specs.Isolation.{LookAlike};
ghost use Rattle.sng_two_runs.specs.Runs.{IsHistory, TracesAgree};

use crate::own::push_own;
use sng_book::{Event, trace};
use sng_core::run;
use sng_text::{ClientId, all_same};
use std::alloc::{AllocError, Global};

/// Whether the client gets the same in a run over the first events and in one over the second: the datagrams
/// to its addresses, which are those from which a CONNECT names it in either list, and the notes of it.
/// `agree`: true exactly where its traces agree in the lawful histories of these events. `apart`: true
/// wherever these look the same to it, whatever other clients send. An `Err` is a failed allocation.
pub fn two_runs(
    alloc: Global,
    first: &[Event],
    second: &[Event],
    id: &ClientId,
) -> Result<bool, AllocError>
    ensures agree { IfOk result (λ same. (h k : List Row) → IsHistory first.now h
        → IsHistory second.now k → (IsTrue same ↔ TracesAgree id.now h k)) }
    ensures apart { IfOk result (λ same. (h k : List Row) → IsHistory first.now h
        → IsHistory second.now k → LookAlike id.now h k → same ≡ true) }
{
    let rows = run(alloc, first)?;
    let others = run(alloc, second)?;
    let mut own = Vec::new(alloc);
    push_own(&mut own, alloc, first, id)?;
    push_own(&mut own, alloc, second, id)?;
    let one = trace(alloc, rows.as_slice(), id, own.as_slice())?;
    let other = trace(alloc, others.as_slice(), id, own.as_slice())?;
    Ok(all_same(one.as_slice(), other.as_slice()))
}
