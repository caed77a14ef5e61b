//! What the worker at the connection asks the desk about what was heard: an act for each packet, then a take,
//! and the loss of a connection that was up.
ghost use Rattle.std.specs.Prelude.{◌≡◌, ◌+◌, ◌≤◌, ℕ, true, length, map};
ghost use Rattle.sng_book.specs.declared.event.Event.TheVariants.{Broker};
ghost use Rattle.sng_crew.specs.declared.connection.Stage.TheVariants.{Greeting};
ghost use Rattle.sng_desk.specs.Acts.{Acted};
ghost use Rattle.sng_crew.specs.Turning.{Answered, downs, heard, is_connected};

use crate::connection::{Close, Stage};
use crate::hearing::accepts;
use mqtt_frames::Packet;
use sng_book::Event;
use sng_desk::{Desk, Gate, Hand};
use std::sync::{Mutex, Wait};

/// What came of what was heard.
#[derive(Clone, Copy, Debug, PartialEq, Eq)]
pub struct Said {
    /// The connection was up.
    pub up: bool,
    /// It stays, as far as what was heard goes.
    pub stays: bool,
    /// It was accepted, before or now.
    pub greeted: bool,
}

/// An act for each packet. The answer is that none was refused.
fn act_each<R: Wait, G: Gate>(
    hand: &mut Hand,
    rt: &R,
    desk: &Mutex<Desk>,
    gate: &G,
    packets: Vec<Packet>,
) -> bool
    requires { length packets.items ≤ hand.old.log.spare }
    ensures acted { Acted (map (λ p. Broker p) packets.items) hand.old.log.trail hand.old.share
        hand.new.log.trail hand.new.share result }
    ensures spare { hand.old.log.spare ≤ hand.new.log.spare + length packets.items }
{
    let mut fine = true;
    for packet in packets {
        let taken = hand.act(rt, desk, gate, Event::Broker(packet));
        fine &= taken;
    }
    fine
}

/// Each packet, and then a take, unless the connection is lost. The answer is that nothing was refused.
fn act_on<R: Wait, G: Gate>(
    hand: &mut Hand,
    rt: &R,
    desk: &Mutex<Desk>,
    gate: &G,
    packets: Vec<Packet>,
    broken: bool,
) -> bool
    requires { length packets.items + 1 ≤ hand.old.log.spare }
    ensures acted { Acted (heard packets.items broken) hand.old.log.trail hand.old.share
        hand.new.log.trail hand.new.share result }
    ensures spare { hand.old.log.spare ≤ hand.new.log.spare + length packets.items + 1 }
{
    let fine = act_each(hand, rt, desk, gate, packets);
    if broken {
        return fine;
    }
    let taken = hand.act(rt, desk, gate, Event::Take);
    fine & taken
}

/// The first packet of a connection is to accept it.
fn greet<R: Wait, G: Gate>(
    hand: &mut Hand,
    rt: &R,
    desk: &Mutex<Desk>,
    gate: &G,
    packets: Vec<Packet>,
    broken: bool,
) -> Said
    requires { length packets.items + 2 ≤ hand.old.log.spare }
    ensures answered { (n : ℕ) → Answered (Greeting n) packets.items broken hand.old.log.trail
        hand.old.share hand.new.log.trail hand.new.share result.up result.stays result.greeted }
    ensures spare { hand.old.log.spare ≤ hand.new.log.spare + length packets.items + 1 }
{
    let Some((first, _)) = packets.as_slice().split_first() else {
        return Said {
            up: false,
            stays: !broken,
            greeted: false,
        };
    };
    if !accepts(first) {
        return Said {
            up: false,
            stays: false,
            greeted: false,
        };
    }
    let mut others = packets;
    let _first = others.remove(0);
    let up = hand.act(rt, desk, gate, Event::Up);
    let fine = act_on(hand, rt, desk, gate, others, broken);
    Said {
        up,
        stays: !broken & (up & fine),
        greeted: true,
    }
}

/// Acts on what was heard.
pub fn answer<R: Wait, G: Gate>(
    hand: &mut Hand,
    rt: &R,
    desk: &Mutex<Desk>,
    gate: &G,
    stage: Stage,
    packets: Vec<Packet>,
    broken: bool,
) -> Said
    requires connected { is_connected stage ≡ true }
    requires room { length packets.items + 2 ≤ hand.old.log.spare }
    ensures answered { Answered stage packets.items broken hand.old.log.trail hand.old.share
        hand.new.log.trail hand.new.share result.up result.stays result.greeted }
    ensures spare { hand.old.log.spare ≤ hand.new.log.spare + length packets.items + 1 }
{
    if let Stage::Greeting(_) = stage {
        return greet(hand, rt, desk, gate, packets, broken);
    }
    let fine = act_on(hand, rt, desk, gate, packets, broken);
    Said {
        up: true,
        stays: !broken & fine,
        greeted: true,
    }
}

/// Tells the desk that a connection that was up has ended. The answer is that this was not refused.
pub fn down<R: Wait, G: Gate>(
    hand: &mut Hand,
    rt: &R,
    desk: &Mutex<Desk>,
    gate: &G,
    close: Close,
    up: bool,
) -> bool
    requires { 1 ≤ hand.old.log.spare }
    ensures { Acted (downs close up) hand.old.log.trail hand.old.share hand.new.log.trail hand.new.share
        result }
{
    if !up {
        return true;
    }
    if let Close::Stays = close {
        return true;
    }
    hand.act(rt, desk, gate, Event::Down)
}
