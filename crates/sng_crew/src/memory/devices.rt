//! Datagrams over memory.
ghost use Rattle.std.specs.Prelude.{◌≡◌, ◌≤◌, ◌<◌, ◌↔◌, ◌++◌, ◌∷◌, [], false, not, take, true};
ghost use Rattle.sng_desk.specs.Acts.{sends_in};

use crate::memory::Calls;
use sng_book::{Address, Out};
use sng_desk::{Datagrams, Got};
use sng_text::WireBytes;
use std::alloc::Global;

/// Gives some datagrams, and keeps what is passed to it.
#[derive(Debug, Drop)]
pub struct MemoryDatagrams {
    datagrams: Vec<(Address, WireBytes)>,
    next: usize,
    kept: Vec<(Address, WireBytes)>,
    calls: Calls,
    failures: u64,
    unsent: u64,
    has_lost: bool,
    is_over: bool,
}

impl MemoryDatagrams {
    /// It gives these datagrams, and has ended then.
    pub fn new(
        alloc: Global,
        datagrams: Vec<(Address, WireBytes)>,
        calls: Calls,
    ) -> MemoryDatagrams {
        MemoryDatagrams {
            datagrams,
            next: 0,
            kept: Vec::new(alloc),
            calls,
            failures: 0,
            unsent: 0,
            has_lost: false,
            is_over: false,
        }
    }

    /// What was passed to it, in order, that which was lost among it.
    pub fn kept(&self) -> &[(Address, WireBytes)] {
        self.kept.as_slice()
    }

    /// How many datagrams were lost that were passed to it.
    pub fn unsent(&self) -> u64 {
        self.unsent
    }

    /// Keeps a datagram that was passed to it, as long as there is memory.
    fn keep(&mut self, to: Address, datagram: &WireBytes)
        ensures told { not self.new.has_lost ≡ true → not self.old.has_lost ≡ true }
        ensures kept { not self.new.has_lost ≡ true → self.new.kept.items ≡ self.old.kept.items
            ++ (to, datagram.now) ∷ [] }
        ensures gave { (self.new.next ≡ self.old.next) × (self.new.datagrams ≡ self.old.datagrams) }
        ensures counts { (self.new.failures ≡ self.old.failures) × (self.new.unsent ≡ self.old.unsent) }
        ensures over { self.new.is_over ≡ self.old.is_over }
    {
        let Ok(copy) = datagram.copy() else {
            self.has_lost = true;
            return;
        };
        let Ok(()) = self.kept.push((to, copy)) else {
            self.has_lost = true;
            return;
        };
    }

    /// Takes a datagram that is passed to it. Whether the call did not fail: else it is lost, and counted.
    fn pass(&mut self, to: Address, datagram: &WireBytes) -> bool
        ensures told { not self.new.has_lost ≡ true → not self.old.has_lost ≡ true }
        ensures kept { not self.new.has_lost ≡ true → self.new.kept.items ≡ self.old.kept.items
            ++ (to, datagram.now) ∷ [] }
        ensures gave { (self.new.next ≡ self.old.next) × (self.new.datagrams ≡ self.old.datagrams) }
        ensures lost { (result ≡ false) ↔ (self.old.unsent < self.new.unsent) }
        ensures unsent { self.old.unsent ≤ self.new.unsent }
        ensures failures { self.new.failures ≡ self.old.failures }
        ensures over { self.new.is_over ≡ self.old.is_over }
    {
        self.keep(to, datagram);
        if self.calls.fails() && self.unsent < u64::MAX {
            self.unsent += 1;
            return false;
        }
        true
    }

    /// Takes the datagram of an out, if it is one.
    fn pass_out(&mut self, out: &Out)
        ensures told { not self.new.has_lost ≡ true → not self.old.has_lost ≡ true }
        ensures kept { not self.new.has_lost ≡ true → self.new.kept.items ≡ self.old.kept.items
            ++ sends_in (out.now ∷ []) }
        ensures gave { (self.new.next ≡ self.old.next) × (self.new.datagrams ≡ self.old.datagrams) }
        ensures unsent { self.old.unsent ≤ self.new.unsent }
        ensures failures { self.new.failures ≡ self.old.failures }
        ensures over { self.new.is_over ≡ self.old.is_over }
    {
        match out {
            Out::Send(to, datagram) => {
                let _sent = self.pass(*to, datagram);
            }
            Out::Wire(_) => {}
            Out::Note(_) => {}
        }
    }

    /// Takes the datagrams among some outs, in order.
    fn pass_outs(&mut self, outs: &[Out])
        ensures told { not self.new.has_lost ≡ true → not self.old.has_lost ≡ true }
        ensures kept { not self.new.has_lost ≡ true → self.new.kept.items ≡ self.old.kept.items
            ++ sends_in outs.now }
        ensures gave { (self.new.next ≡ self.old.next) × (self.new.datagrams ≡ self.old.datagrams) }
        ensures unsent { self.old.unsent ≤ self.new.unsent }
        ensures failures { self.new.failures ≡ self.old.failures }
        ensures over { self.new.is_over ≡ self.old.is_over }
    {
        for out in outs {
            self.pass_out(out);
        }
    }

    /// How many calls there were.
    pub fn calls(&self) -> &Calls {
        &self.calls
    }
}

impl Datagrams for MemoryDatagrams {
    ghost tells = { λ m. not m.has_lost };

    ghost gave = { λ m. take m.next m.datagrams.items };

    ghost passed = { λ m. m.kept.items };

    ghost failures = { λ m. m.failures };

    ghost unsent = { λ m. m.unsent };

    ghost has_ended = { λ m. m.is_over };

    fn receive(&mut self) -> Got<(Address, WireBytes)> {
        if self.calls.fails() && self.failures < u64::MAX {
            self.failures += 1;
            return Got::Failed;
        }
        if self.datagrams.len() <= self.next {
            self.is_over = true;
            return Got::Ended;
        }
        let (from, datagram) = &self.datagrams[self.next];
        let from = *from;
        let Ok(copy) = datagram.copy() else {
            if self.failures == u64::MAX {
                return Got::Nothing;
            }
            self.failures += 1;
            return Got::Failed;
        };
        self.next += 1;
        Got::Came((from, copy))
    }

    fn send(&mut self, to: Address, datagram: &WireBytes) -> bool {
        self.pass(to, datagram)
    }

    fn send_outs(&mut self, outs: &[Out]) {
        self.pass_outs(outs);
    }

    fn ended(&self) -> bool {
        self.is_over
    }
}
