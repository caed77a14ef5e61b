//! Connections to the broker over memory.
ghost use Rattle.std.specs.Prelude.{◌≡◌, ◌++◌, ◌∷◌, [], not, true};
ghost use Rattle.sng_crew.specs.Devices.{IsShort, read_call, wrote_call};

use crate::connection::{Call, Opening, ReadAnswer, Upstream, Written};
use crate::limits::MAX_READ;
use crate::memory::Calls;
use mqtt_frames::List;
use sng_text::Octets;
use std::alloc::Global;

/// Connections, each of which gives its pieces and is lost then. Each write takes at most so many bytes.
#[derive(Debug, Drop)]
pub struct MemoryUpstream {
    alloc: Global,
    connections: Vec<Vec<Octets>>,
    opened: usize,
    next: usize,
    at_most: usize,
    calls: Calls,
    did: List<Call>,
    has_lost: bool,
    is_over: bool,
}

impl MemoryUpstream {
    /// It makes a connection for each of these lists of pieces. A write takes `at_most` bytes, one at least.
    pub fn new(
        alloc: Global,
        connections: Vec<Vec<Octets>>,
        at_most: usize,
        calls: Calls,
    ) -> MemoryUpstream {
        MemoryUpstream {
            alloc,
            connections,
            opened: 0,
            next: 0,
            at_most,
            calls,
            did: List::from(Vec::new(alloc)),
            has_lost: false,
            is_over: false,
        }
    }

    /// What it did, in order.
    pub fn did(&self) -> &[Call] {
        self.did.as_slice()
    }

    /// How many calls there were.
    pub fn calls(&self) -> &Calls {
        &self.calls
    }

    /// Notes a call, as long as there is memory.
    fn note(&mut self, call: Call)
        ensures told { not self.new.has_lost ≡ true → not self.old.has_lost ≡ true }
        ensures done { not self.new.has_lost ≡ true → self.new.did ≡ self.old.did ++ call ∷ [] }
        ensures over { self.new.is_over ≡ self.old.is_over }
    {
        let Ok(()) = self.did.push(call) else {
            self.has_lost = true;
            return;
        };
    }

    fn note_read(&mut self, bytes: &Octets)
        ensures told { not self.new.has_lost ≡ true → not self.old.has_lost ≡ true }
        ensures done { not self.new.has_lost ≡ true → self.new.did ≡ self.old.did ++ read_call bytes.now
            ∷ [] }
    {
        let Ok(copy) = bytes.copy() else {
            self.has_lost = true;
            return;
        };
        self.note(Call::Read(copy));
    }

    fn note_write(&mut self, bytes: &[u8])
        ensures told { not self.new.has_lost ≡ true → not self.old.has_lost ≡ true }
        ensures done { not self.new.has_lost ≡ true → self.new.did ≡ self.old.did ++ wrote_call bytes.now
            ∷ [] }
    {
        let mut copy = Vec::new(self.alloc);
        if copy.extend_from_slice(bytes).is_err() {
            self.has_lost = true;
            return;
        }
        self.note(Call::Wrote(Octets::from(copy)));
    }

    /// The next piece of the last connection that was made.
    fn next_piece(&mut self) -> ReadAnswer
        ensures same { (self.new.did ≡ self.old.did) × (self.new.has_lost ≡ self.old.has_lost) }
        ensures short { IsShort MAX_READ result }
    {
        if self.calls.fails() {
            return ReadAnswer::Gone;
        }
        let Some(connection) = self.connections.as_slice().get(self.opened) else {
            return ReadAnswer::Gone;
        };
        let Some(bytes) = connection.as_slice().get(self.next) else {
            return ReadAnswer::Gone;
        };
        let piece = copied(bytes);
        if self.next < usize::MAX {
            self.next += 1;
        }
        piece
    }
}

/// An equal piece, where it is short enough and there is memory.
fn copied(bytes: &Octets) -> ReadAnswer
    ensures { IsShort MAX_READ result }
{
    if bytes.len() > MAX_READ {
        return ReadAnswer::Gone;
    }
    match bytes.copy() {
        Ok(copy) => ReadAnswer::Piece(copy),
        Err(_) => ReadAnswer::Gone,
    }
}

impl Upstream for MemoryUpstream {
    ghost tells = { λ m. not m.has_lost };

    ghost did = { λ m. m.did };

    ghost has_ended = { λ m. m.is_over };

    fn connect(&mut self) -> Opening {
        if self.connections.len() <= self.opened {
            self.is_over = true;
            self.note(Call::NoMore);
            return Opening::NoneLeft;
        }
        if self.calls.fails() {
            self.note(Call::NotOpened);
            return Opening::Missed;
        }
        self.next = 0;
        self.note(Call::Opened);
        Opening::Made
    }

    fn read(&mut self) -> ReadAnswer {
        let got = self.next_piece();
        match &got {
            ReadAnswer::Nothing => self.note(Call::Quiet),
            ReadAnswer::Piece(bytes) => self.note_read(bytes),
            ReadAnswer::Gone => self.note(Call::Lost),
        }
        got
    }

    fn write(&mut self, bytes: &[u8]) -> Written {
        if self.calls.fails() {
            self.note(Call::NotWritten);
            return Written::Failed;
        }
        let n = if self.at_most == 0 {
            1
        } else if self.at_most < bytes.len() {
            self.at_most
        } else {
            bytes.len()
        };
        self.note_write(&bytes[..n]);
        Written::Took(n)
    }

    fn close(&mut self) {
        if self.opened < usize::MAX {
            self.opened += 1;
        }
        self.note(Call::Shut);
    }

    fn ended(&self) -> bool {
        self.is_over
    }
}
