//! The hand-over of what waits for one client (MQTT-SN 1.2, 6.6, 6.10 and 6.14): the messages take their
//! turns, the oldest first, until an exchange begins. It is planned with all memory, and carried out without
//! any.
ghost use Rattle.std.specs.Prelude.{◌≡◌, ◌≤◌, ◌++◌, length, drop, IfOk, OnOk};
ghost use Rattle.std.specs.Option.{option_copied};
ghost use Rattle.sng_grants.specs.Sources.{scope_of};
ghost use Rattle.sng_turns.specs.HandingOver.{message_outs, message_opens, is_open, hand_outs, hand_plan};
ghost use Rattle.sng_turns.specs.HandingOver.{gone_outs, id_or_none};

use crate::known::{fixed_id, known_id};
use crate::turn::{Mail, Recipient, note_hand, take_turn};
use sng_book::{Denial, Outcome, Outs, PeerDenial};
use sng_grants::Scope;
use sng_history::receive_by;
use sng_policy::InForce;
use sng_queue::{Queue, Waiting};
use sng_sessions::{Handed, Opens};
use sng_text::ClientId;
use std::alloc::{AllocError, Global};

/// What is let out as the messages of the queue from this place on are handed over to the client. Answers
/// what it comes to, where those before the place are settled already.
pub fn hand_over(
    alloc: Global,
    policy: &InForce,
    to: Recipient<'_>,
    queue: &Queue,
    first: usize,
    outs: &mut Outs,
) -> Result<Handed, AllocError>
    requires { first ≤ length queue.now.waiting }
    ensures outs { OnOk result (outs.new ≡ outs.old ++ hand_outs policy.now to.entry.id.now to.entry.address
        to.entry.ids.now (id_or_none to.entry.confirming) to.entry.number
        (drop first queue.now.waiting)) }
    ensures plan { IfOk result (λ handed. handed
        ≡ hand_plan policy.now to.entry.id.now to.entry.ids.now (id_or_none to.entry.confirming) first
        (drop first queue.now.waiting)) }
{
    let scope = policy.scope(to.id);
    let mut place = first;
    let mut messages = queue.iter_from(first);
    while let Some(message) = messages.next() {
        let opens = turn(alloc, policy, scope, to, message, outs)?;
        if is_open(&opens) {
            return Ok(Handed {
                settled: place,
                opens,
            });
        }
        place += 1;
    }
    Ok(Handed {
        settled: place,
        opens: Opens::Nothing,
    })
}

/// Whether an exchange begins.
pub fn is_open(opens: &Opens) -> bool
    ensures { result ≡ is_open opens.now }
{
    match opens {
        Opens::Nothing => false,
        Opens::Announcing(_) => true,
        Opens::Awaiting(_, _) => true,
    }
}

/// The turn of one that waits for the client, which has this scope.
fn turn(
    alloc: Global,
    policy: &InForce,
    scope: Option<&Scope>,
    to: Recipient<'_>,
    message: &Waiting,
    outs: &mut Outs,
) -> Result<Opens, AllocError>
    requires { option_copied scope ≡ scope_of policy.now.clients to.id.now }
    ensures outs { OnOk result (outs.new ≡ outs.old
        ++ message_outs policy.now to.entry.id.now to.entry.address to.entry.ids.now
        (id_or_none to.entry.confirming) to.entry.number message.now) }
    ensures opens { IfOk result (λ opens. opens
        ≡ message_opens policy.now to.entry.id.now to.entry.ids.now (id_or_none to.entry.confirming)
        message.now) }
{
    let name = message.name();
    let outcome = receive_by(alloc, scope, to.id, name)?;
    let known = known_id(fixed_id(policy, name), to.ids, to.confirming, name);
    let mail = Mail {
        name,
        payload: message.payload(),
        qos: message.qos(),
        retain: message.retain(),
    };
    take_turn(alloc, to, mail, outcome, known, outs)
}

/// All that waits for the client is gone.
pub fn all_gone(id: &ClientId, queue: &Queue, outs: &mut Outs) -> Result<(), AllocError>
    ensures { OnOk result (outs.new ≡ outs.old ++ gone_outs id.now queue.now.waiting) }
{
    for message in queue.iter() {
        note_hand(
            id,
            message.name(),
            Outcome::Denied(Denial::Peer(PeerDenial::Gone)),
            outs,
        )?;
    }
    Ok(())
}
