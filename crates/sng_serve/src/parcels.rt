//! What of a row the courier sends, and what the worker sends itself: each address belongs to one of both.
ghost use Rattle.std.specs.Prelude.{◌≡◌, ◌≢◌, ◌≤◌, ◌<◌, ◌↔◌, ◌++◌, ◌∷◌, [], ℕ, Bool, List, IsTrue, false, length};
ghost use Rattle.sng_book.specs.declared.address.Address.{Address};
ghost use Rattle.std.specs.List.{All};
ghost use Rattle.sng_desk.specs.Acts.{Moves, sends_in};
ghost use Rattle.sng_serve.specs.Parcels.{couriers, is_couriers, own};
ghost use Rattle.sng_serve.specs.declared.parcels.TheConstants.{SHARED_DATAGRAMS};

use sng_book::{Address, Out};
use sng_text::WireBytes;

/// From so many datagrams of a row on the courier sends a part of them. Among fewer, to wake it costs what it
/// spares (docs/measuring.md).
pub const SHARED_DATAGRAMS: usize = 64;

/// A datagram, and where it goes.
pub type Parcel = (Address, WireBytes);

/// Whether there are so many datagrams among the outs that the courier sends a part of them.
pub fn are_many(outs: &[Out]) -> bool
    ensures { IsTrue result ↔ (SHARED_DATAGRAMS ≤ length (sends_in outs.now)) }
{
    SHARED_DATAGRAMS <= datagrams_in(outs)
}

/// How many datagrams there are among the outs.
fn datagrams_in(outs: &[Out]) -> usize
    ensures { result ≡ length (sends_in outs.now) }
{
    let mut count = 0;
    for out in outs {
        count += number_of(out);
    }
    count
}

/// 1 for a datagram, and 0 for any other out.
fn number_of(out: &Out) -> usize
    ensures number { result ≡ length (sends_in (out.now ∷ [])) }
    ensures small { result ≤ 1 }
{
    match out {
        Out::Send(_, _) => 1,
        Out::Wire(_) => 0,
        Out::Note(_) => 0,
    }
}

/// Whether the courier sends to the address: it does to about half of all, whether they differ in their hosts or
/// in their ports.
fn is_couriers(to: Address) -> bool
    ensures { result ≡ is_couriers to }
{
    let [_, _, _, host] = to.ip;
    (u32::from(host) + u32::from(to.port)) % 2 == 1
}

/// Appends copies of the datagrams that the courier sends, in order. Whether it may: not where one of the outs is
/// the datagram that may be held back, and not where memory is wanting.
pub fn put_apart(parcels: &mut Vec<Parcel>, outs: &[Out], held: &[u8]) -> bool
    ensures parts { IsTrue result → parcels.new.items ≡ parcels.old.items ++ couriers (sends_in outs.now) }
    ensures free { IsTrue result → All (λ p. p.1 ≢ held.now) (sends_in outs.now) }
{
    for out in outs {
        if !put_out(parcels, out, held) {
            return false;
        }
    }
    true
}

fn put_out(parcels: &mut Vec<Parcel>, out: &Out, held: &[u8]) -> bool
    ensures parts { IsTrue result
        → parcels.new.items ≡ parcels.old.items ++ couriers (sends_in (out.now ∷ [])) }
    ensures free { IsTrue result → All (λ p. p.1 ≢ held.now) (sends_in (out.now ∷ [])) }
{
    match out {
        Out::Send(to, datagram) => {
            datagram.as_slice() != held && put_datagram(parcels, *to, datagram)
        }
        Out::Wire(_) => true,
        Out::Note(_) => true,
    }
}

/// Appends a copy, where the courier sends it. Whether there was memory for it.
fn put_datagram(parcels: &mut Vec<Parcel>, to: Address, datagram: &WireBytes) -> bool
    ensures { IsTrue result
        → parcels.new.items ≡ parcels.old.items ++ couriers ((to, datagram.now) ∷ []) }
{
    if !is_couriers(to) {
        return true;
    }
    match datagram.copy() {
        Ok(copy) => parcels.push((to, copy)).is_ok(),
        Err(_) => false,
    }
}

/// What sends datagrams, one by one.
pub trait Sender: Drop {
    /// Whether it tells what was passed to it.
    ghost tells: { Self → Bool };

    /// The datagrams that were passed to it, in order, each with the address to which it goes.
    ghost passed: { Self → List (Address × List ℕ) };

    /// How often it failed at something else.
    ghost failures: { Self → ℕ };

    /// How many datagrams were lost that were passed to it.
    ghost unsent: { Self → ℕ };

    /// Passes a datagram on. The answer is that the call did not fail: where it did, the datagram is lost,
    /// and counted.
    fn pass_on(&mut self, to: Address, datagram: &WireBytes) -> bool
        ensures passed { Moves tells passed self.old self.new ((to, datagram.now) ∷ []) }
        ensures lost { (result ≡ false) ↔ (unsent self.old < unsent self.new) }
        ensures unsent { unsent self.old ≤ unsent self.new }
        ensures failures { failures self.new ≡ failures self.old };
}

/// Sends the datagrams among the outs, but for those that the courier sends where it has its part, in order.
pub fn send_own<S: Sender>(sender: &mut S, outs: &[Out], is_shared: bool)
    ensures passed { Moves S.tells S.passed sender.old sender.new (own is_shared (sends_in outs.now)) }
    ensures unsent { S.unsent sender.old ≤ S.unsent sender.new }
    ensures failures { S.failures sender.new ≡ S.failures sender.old }
{
    for out in outs {
        send_out(sender, out, is_shared);
    }
}

fn send_out<S: Sender>(sender: &mut S, out: &Out, is_shared: bool)
    ensures passed { Moves S.tells S.passed sender.old sender.new (own is_shared (sends_in (out.now ∷ []))) }
    ensures unsent { S.unsent sender.old ≤ S.unsent sender.new }
    ensures failures { S.failures sender.new ≡ S.failures sender.old }
{
    match out {
        Out::Send(to, datagram) => {
            if !(is_shared && is_couriers(*to)) {
                let _sent = sender.pass_on(*to, datagram);
            }
        }
        Out::Wire(_) => {}
        Out::Note(_) => {}
    }
}

/// Sends these, in order.
pub fn send_parcels<S: Sender>(sender: &mut S, parcels: &[Parcel])
    ensures passed { Moves S.tells S.passed sender.old sender.new parcels.now }
    ensures unsent { S.unsent sender.old ≤ S.unsent sender.new }
    ensures failures { S.failures sender.new ≡ S.failures sender.old }
{
    for parcel in parcels {
        let _sent = sender.pass_on(parcel.0, &parcel.1);
    }
}
