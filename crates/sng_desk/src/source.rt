//! Where events come from, and where datagrams go: the traits that a worker knows. Each tells contracts what
//! it gave and what was passed to it, as far as it can (`tells`): a socket tells nothing, one over memory
//! all.
ghost use Rattle.std.specs.Prelude.{◌≡◌, ◌≤◌, ◌<◌, ◌↔◌, ◌⊎◌, ◌∷◌, [], ℕ, Bool, List, true, false, map};
ghost use Rattle.sng_book.specs.declared.address.Address.{Address};
ghost use Rattle.sng_grants.specs.declared.policy.Policy.{Policy as policy};
ghost use Rattle.sng_desk.specs.declared.source.Got.TheVariants.{Ended as ended_answer};
ghost use Rattle.sng_desk.specs.declared.source.Got.TheVariants.{Failed as failed_answer};
ghost use Rattle.sng_desk.specs.Acts.{Moves, sends_in};
ghost use Rattle.sng_desk.specs.Working.{given_by};

use sng_book::{Address, Out};
use sng_grants::Policy;
use sng_text::WireBytes;

/// What a source answers.
#[derive(Debug, Drop)]
pub enum Got<T> {
    /// This came.
    Came(T),
    /// Nothing came in a while.
    Nothing,
    /// Nothing will come any more.
    Ended,
    /// The call failed.
    Failed,
}

/// A source of datagrams, by which others can be sent.
pub trait Datagrams: Drop {
    /// Whether it tells what it gave, and what was passed to it.
    ghost tells: { Self → Bool };

    /// The datagrams that it gave, in order, each with the address from which it came.
    ghost gave: { Self → List (Address × List ℕ) };

    /// The datagrams that were passed to it, in order, each with the address to which it goes.
    ghost passed: { Self → List (Address × List ℕ) };

    /// How often it answered that it failed.
    ghost failures: { Self → ℕ };

    /// How many datagrams were lost that were passed to it.
    ghost unsent: { Self → ℕ };

    /// It answered that nothing more comes.
    ghost has_ended: { Self → Bool };

    /// The next datagram, with the address from which it came.
    fn receive(&mut self) -> Got<(Address, WireBytes)>
        ensures given { Moves tells gave self.old self.new (given_by result) }
        ensures passed { Moves tells passed self.old self.new [] }
        ensures failures { failures self.old ≤ failures self.new }
        ensures failed { (result ≡ failed_answer) ↔ (failures self.old < failures self.new) }
        ensures ended { result ≡ ended_answer → has_ended self.new ≡ true }
        ensures ends { has_ended self.new ≡ true → (result ≡ ended_answer) ⊎ (has_ended self.old ≡ true) };

    /// Passes a datagram on. The answer is that the call did not fail: where it did, the datagram is lost,
    /// and counted.
    fn send(&mut self, to: Address, datagram: &WireBytes) -> bool
        ensures given { Moves tells gave self.old self.new [] }
        ensures passed { Moves tells passed self.old self.new ((to, datagram.now) ∷ []) }
        ensures unsent { (result ≡ false) ↔ (unsent self.old < unsent self.new) }
        ensures counted { unsent self.old ≤ unsent self.new }
        ensures failures { failures self.new ≡ failures self.old }
        ensures ends { has_ended self.new ≡ has_ended self.old };

    /// Passes on the datagrams among some outs. Those to one address leave in their order, and each that is lost
    /// is counted.
    fn send_outs(&mut self, outs: &[Out])
        ensures given { Moves tells gave self.old self.new [] }
        ensures passed { Moves tells passed self.old self.new (sends_in outs.now) }
        ensures unsent { unsent self.old ≤ unsent self.new }
        ensures failures { failures self.new ≡ failures self.old }
        ensures ends { has_ended self.new ≡ has_ended self.old };

    /// Whether it answered that nothing more comes.
    fn ended(&self) -> bool
        ensures { result ≡ has_ended self.now };
}

/// A source of clock values, in ms.
pub trait Beats: Drop {
    /// Whether it tells what it gave.
    ghost tells: { Self → Bool };

    /// The clock values that it gave, in order.
    ghost gave: { Self → List ℕ };

    /// How often it answered that it failed.
    ghost failures: { Self → ℕ };

    /// It answered that nothing more comes.
    ghost has_ended: { Self → Bool };

    /// The next clock value.
    fn next(&mut self) -> Got<u64>
        ensures given { Moves tells gave self.old self.new (given_by result) }
        ensures failures { failures self.old ≤ failures self.new }
        ensures failed { (result ≡ failed_answer) ↔ (failures self.old < failures self.new) }
        ensures ended { result ≡ ended_answer → has_ended self.new ≡ true }
        ensures ends { has_ended self.new ≡ true → (result ≡ ended_answer) ⊎ (has_ended self.old ≡ true) };

    /// Whether it answered that nothing more comes.
    fn ended(&self) -> bool
        ensures { result ≡ has_ended self.now };
}

/// A source of policies that were read.
pub trait Policies: Drop {
    /// Whether it tells what it gave.
    ghost tells: { Self → Bool };

    /// The policies that it gave, in order.
    ghost gave: { Self → List policy };

    /// How often it answered that it failed.
    ghost failures: { Self → ℕ };

    /// It answered that nothing more comes.
    ghost has_ended: { Self → Bool };

    /// The next policy.
    fn next(&mut self) -> Got<Policy>
        ensures given { Moves tells gave self.old self.new (given_by result) }
        ensures failures { failures self.old ≤ failures self.new }
        ensures failed { (result ≡ failed_answer) ↔ (failures self.old < failures self.new) }
        ensures ended { result ≡ ended_answer → has_ended self.new ≡ true }
        ensures ends { has_ended self.new ≡ true → (result ≡ ended_answer) ⊎ (has_ended self.old ≡ true) };

    /// Whether it answered that nothing more comes.
    fn ended(&self) -> bool
        ensures { result ≡ has_ended self.now };
}
