//! Packet ids to the broker, counted past those in use (MQTT 3.1.1, 2.3.1).
ghost use Rattle.std.specs.Prelude.{◌≡◌, ◌≤◌, ℕ, List, [], false, true, length, IfOk};
ghost use Rattle.sng_outbox.specs.PacketIds.{successor, next_id, with_mark, AreInUse};

use std::alloc::{AllocError, Global};
use std::marker::Model;

/// How many numbers a packet id has, 0 among them, which is none.
const NUMBERS: usize = 65_536;

/// The packet ids that are in use, and the one that was given last. Which those are its holder says: those of
/// the publishes in flight, and those of the open SUBSCRIBEs. Room for all is made once, so no later call
/// takes memory. Contracts see a mark for each number, and the id that was given last.
#[derive(Debug, Drop)]
pub struct PacketIds {
    marks: Vec<bool>,
    last: u16,
}

impl Model for PacketIds {
    ghost use Rattle.std.specs.Prelude.{◌≡◌, length};
    ghost use Rattle.sng_outbox.specs.PacketIds.{Numbering};

    ghost Value = { Numbering };

    ghost view = { λ p. record { marks = p.marks.items; last = p.last } };

    ghost invariant = { λ p. length p.marks.items ≡ 65536 };
}

impl PacketIds {
    /// No id is in use, and 1 will be the first. Only memory can fail.
    pub fn new(alloc: Global) -> Result<PacketIds, AllocError>
        ensures none { IfOk result (λ ids. AreInUse [] ids.marks) }
        ensures last { IfOk result (λ ids. ids.last ≡ 0) }
    {
        Ok(PacketIds {
            marks: vec![in alloc; false; NUMBERS]?,
            last: 0,
        })
    }

    /// The id that was given last, 0 where none was.
    pub fn last(&self) -> u16
        ensures { result ≡ self.now.last }
    {
        self.last
    }

    /// The id that `give` would give: the first that is not in use, counted on from the last one. 1 follows
    /// on 65,535.
    pub fn next(&self) -> u16
        ensures some { 1 ≤ result }
        ensures next { (ids : List ℕ) → length ids ≤ 65534 → AreInUse ids self.now.marks
            → result ≡ next_id ids self.now.last }
    {
        next_id(&self.marks, self.last)
    }

    /// Counts on to the next id without taking it into use, as for a packet whose answer nothing waits for.
    pub fn pass(&mut self) -> u16
        ensures some { 1 ≤ result }
        ensures next { (ids : List ℕ) → length ids ≤ 65534 → AreInUse ids self.old.marks
            → result ≡ next_id ids self.old.last }
        ensures after { self.new ≡ record self.old { last = result } }
    {
        let packet_id = next_id(&self.marks, self.last);
        self.last = packet_id;
        packet_id
    }

    /// Counts on to the next id, which is in use from then on.
    pub fn give(&mut self) -> u16
        ensures some { 1 ≤ result }
        ensures next { (ids : List ℕ) → length ids ≤ 65534 → AreInUse ids self.old.marks
            → result ≡ next_id ids self.old.last }
        ensures after { self.new ≡ with_mark (record self.old { last = result }) result true }
    {
        let packet_id = next_id(&self.marks, self.last);
        self.last = packet_id;
        self.marks[usize::from(packet_id)] = true;
        packet_id
    }

    /// The id is in use, as that of an open SUBSCRIBE again whose successor was taken back.
    pub fn mark(&mut self, packet_id: u16)
        ensures { self.new ≡ with_mark self.old packet_id true }
    {
        self.marks[usize::from(packet_id)] = true;
    }

    /// The id is free again.
    pub fn free(&mut self, packet_id: u16)
        ensures { self.new ≡ with_mark self.old packet_id false }
    {
        self.marks[usize::from(packet_id)] = false;
    }

    /// Counts on from this id again, as before a plan that was given up.
    pub fn count_from(&mut self, last: u16)
        ensures { self.new ≡ record self.old { last = last } }
    {
        self.last = last;
    }
}

/// The packet id that follows on this one: 1 on 65,535, since 0 is none.
fn successor(packet_id: u16) -> u16
    ensures { result ≡ successor packet_id }
{
    if packet_id == u16::MAX {
        1
    } else {
        packet_id + 1
    }
}

/// The first id without a mark, counted on from the last one. Where one is free, as many turns as there are
/// ids but one find it.
fn next_id(marks: &[bool], last: u16) -> u16
    requires { length marks.now ≡ 65536 }
    ensures some { 1 ≤ result }
    ensures next { (ids : List ℕ) → length ids ≤ 65534 → AreInUse ids marks.now → result ≡ next_id ids last }
{
    let mut packet_id = successor(last);
    for _turn in 0..u16::MAX - 1 {
        if !marks[usize::from(packet_id)] {
            return packet_id;
        }
        packet_id = successor(packet_id);
    }
    packet_id
}
