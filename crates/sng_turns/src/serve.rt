//! What a client is served: all that may leave of what waits for it, and PINGRESP where it is awake and
//! nothing is left (MQTT-SN 1.2, 6.10 and 6.14).
ghost use Rattle.std.specs.Prelude.{◌≡◌, ◌<◌, ◌≤◌, ◌++◌, length, IfOk, OnOk};
ghost use Rattle.sng_history.specs.Answers.{pong};
ghost use Rattle.sng_sessions.specs.Standing.{client_at};
ghost use Rattle.sng_turns.specs.Serving.{told_left, over_plan, serving_outs, more_by, first_by};
ghost use Rattle.sng_turns.specs.HandingOver.{id_or_none};

use crate::hand_over::{hand_over, is_open};
use crate::turn::Recipient;
use sng_book::{Address, Out, Outs};
use sng_frames::write_ping_response;
use sng_policy::InForce;
use sng_sessions::{Handed, Sessions};
use sng_states::ClientState;
use std::alloc::{AllocError, Global};

/// What was settled with a client just before what waits is handed over.
#[derive(Clone, Copy, Debug)]
pub enum Settled {
    /// Nothing.
    Nothing,
    /// It confirmed the id that was announced.
    Id(u16),
    /// The front, for which an id was announced, came out.
    Front,
}

impl Settled {
    /// The topic id that the client confirmed.
    pub fn id(self) -> Option<u16>
        ensures { id_or_none result ≡ more_by self }
    {
        match self {
            Settled::Nothing => None,
            Settled::Id(id) => Some(id),
            Settled::Front => None,
        }
    }

    /// How many of those that wait.
    fn messages(self) -> usize
        ensures { result ≡ first_by self }
    {
        match self {
            Settled::Nothing => 0,
            Settled::Id(_) => 0,
            Settled::Front => 1,
        }
    }
}

/// What is let out as what waits is handed over to the client at this place, which stands so, once this is
/// settled; no exchange is open with it then. Answers what it comes to.
pub fn serve_plan(
    alloc: Global,
    policy: &InForce,
    phase: ClientState,
    sessions: &Sessions,
    place: usize,
    settled: Settled,
    outs: &mut Outs,
) -> Result<Handed, AllocError>
    requires place { place < length sessions.now }
    requires first { first_by settled ≤ length (client_at sessions.now place).buffer.waiting }
    ensures outs { OnOk result (outs.new ≡ outs.old ++ serving_outs policy.now phase (more_by settled)
        (first_by settled) (client_at sessions.now place)) }
    ensures plan { IfOk result (λ handed. handed
        ≡ over_plan policy.now (more_by settled) (first_by settled) (client_at sessions.now place)) }
{
    let to = Recipient {
        id: sessions.id(place),
        address: sessions.address(place),
        ids: sessions.ids(place),
        confirming: settled.id(),
        number: sessions.number(place),
    };
    let queue = sessions.queue(place);
    let handed = hand_over(alloc, policy, to, queue, settled.messages(), outs)?;
    tell_left(alloc, phase, to.address, &handed, outs)?;
    Ok(handed)
}

/// An awake client for which nothing is left is told so: no exchange begins with it.
fn tell_left(
    alloc: Global,
    phase: ClientState,
    to: Address,
    handed: &Handed,
    outs: &mut Outs,
) -> Result<(), AllocError>
    ensures { OnOk result (outs.new ≡ outs.old ++ told_left phase to handed.now) }
{
    if phase.is_awake() && !is_open(&handed.opens) {
        outs.push(pong(alloc, to)?)?;
    }
    Ok(())
}

/// The PINGRESP (MQTT-SN 1.2, 5.4.20).
pub fn pong(alloc: Global, to: Address) -> Result<Out, AllocError>
    ensures { IfOk result (λ out. out ≡ pong to) }
{
    let datagram = write_ping_response(alloc)?;
    Ok(Out::Send(to, datagram))
}
