//! What goes out by the worker at the connection: bytes for the broker until a write fails, and datagrams.
ghost use Rattle.std.specs.Prelude.{◌≡◌, ◌++◌, ◌∷◌, [], not};
ghost use Rattle.sng_desk.specs.Acts.{Moves, sends_of};
ghost use Rattle.sng_crew.specs.Wires.{wires_in, wires_of};
ghost use Rattle.sng_crew.specs.Turning.{Settled, Writes};

use crate::connection::{Close, Upstream, Written};
use sng_book::Out;
use sng_desk::{Datagrams, Receipt};

/// Writes some bytes, and goes on with the rest where only a part was taken.
pub fn write_bytes<U: Upstream>(up: &mut U, bytes: &[u8]) -> bool
    ensures { Writes U.tells U.did up.old up.new bytes.now result }
{
    let mut at = 0;
    while at < bytes.len() {
        let Written::Took(n) = up.write(&bytes[at..]) else {
            return false;
        };
        at += n;
    }
    true
}

fn write_out<U: Upstream>(up: &mut U, out: &Out) -> bool
    ensures { Writes U.tells U.did up.old up.new (wires_in (out.now ∷ [])) result }
{
    match out {
        Out::Wire(bytes) => write_bytes(up, bytes.as_slice()),
        Out::Send(_, _) => true,
        Out::Note(_) => true,
    }
}

fn write_outs<U: Upstream>(up: &mut U, outs: &[Out]) -> bool
    ensures { Writes U.tells U.did up.old up.new (wires_in outs.now) result }
{
    for out in outs {
        if !write_out(up, out) {
            return false;
        }
    }
    true
}

/// Writes what some receipts let out for the broker, until a write fails.
pub fn write_all<U: Upstream>(up: &mut U, receipts: &[Receipt]) -> bool
    ensures { Writes U.tells U.did up.old up.new (wires_of receipts.now) result }
{
    for receipt in receipts {
        if !write_outs(up, receipt.outs()) {
            return false;
        }
    }
    true
}

/// Passes on what some receipts let out for the broker where the connection stays, and else closes it.
pub fn settle<U: Upstream>(up: &mut U, receipts: &[Receipt], stays: bool) -> Close
    ensures { Settled U.tells U.did up.old up.new (wires_of receipts.now) stays result }
{
    if !stays {
        up.close();
        return Close::Closes;
    }
    if write_all(up, receipts) {
        return Close::Stays;
    }
    up.close();
    Close::Breaks
}

/// The same for the first packet of a new connection.
pub fn settle_bytes<U: Upstream>(up: &mut U, bytes: &[u8], stays: bool) -> Close
    ensures { Settled U.tells U.did up.old up.new bytes.now stays result }
{
    if !stays {
        up.close();
        return Close::Closes;
    }
    if write_bytes(up, bytes) {
        return Close::Stays;
    }
    up.close();
    Close::Breaks
}

/// Passes on what some receipts let out for clients.
pub fn send_all<D: Datagrams>(sink: &mut D, receipts: &[Receipt])
    ensures { Moves D.tells D.passed sink.old sink.new (sends_of receipts.now) }
{
    for receipt in receipts {
        sink.send_outs(receipt.outs());
    }
}
