//! What is retained, on its way to one connection.
ghost use Rattle.std.specs.Prelude.{◌≡◌, IfOk, OnOk};
ghost use Rattle.sng_broker.specs.Steps.{replay_one, replay, replay_all};

use crate::parts::{Message, Subscription, id_for, is_at_least_once, last_after};
use crate::publishing::Outs;
use sng_text::matches;
use std::alloc::{AllocError, Global};
use std::marker::Model;

/// What goes to one connection, with the last packet identifier that is used.
#[derive(Drop)]
pub(crate) struct Outgoing {
    pub last_id: u16,
    pub outs: Outs,
}

impl Model for Outgoing {
    ghost use Rattle.sng_broker.specs.Steps.{Outgoing as sight};

    ghost Value = { sight };

    ghost view = { λ s. record { last_id = s.last_id; outs = s.outs.items } };
}

fn replay_one(
    alloc: Global,
    sending: &mut Outgoing,
    standing: &Subscription,
    message: &Message,
) -> Result<(), AllocError>
    ensures { OnOk result (sending.new ≡ replay_one standing.now sending.old message.now) }
{
    if !matches(&standing.filter, &message.name) {
        return Ok(());
    }
    let surely = is_at_least_once(standing.qos) && is_at_least_once(message.qos);
    let packet = message.packet(alloc, true, id_for(surely, sending.last_id))?;
    sending.outs.push((standing.conn, packet))?;
    sending.last_id = last_after(surely, sending.last_id);
    Ok(())
}

fn replay(
    alloc: Global,
    sending: &mut Outgoing,
    standing: &Subscription,
    kept: &[Message],
) -> Result<(), AllocError>
    ensures { OnOk result (sending.new ≡ replay standing.now sending.old kept.now) }
{
    for message in kept {
        replay_one(alloc, sending, standing, message)?;
    }
    Ok(())
}

/// Each retained message that a new filter matches, one filter after another.
pub(crate) fn replay_all(
    alloc: Global,
    sending: &mut Outgoing,
    granted: &[Subscription],
    kept: &[Message],
) -> Result<(), AllocError>
    ensures { OnOk result (sending.new ≡ replay_all kept.now sending.old granted.now) }
{
    for standing in granted {
        replay(alloc, sending, standing, kept)?;
    }
    Ok(())
}
