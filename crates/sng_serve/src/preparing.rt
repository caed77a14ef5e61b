//! What stands before a worker begins: the clock is set, and the policy of the start is in force.

use crate::beats::unix_clock;
use crate::beginning::{Beginning, FirstEnd, begin};
use crate::hub::Hub;
use crate::limits::{FULL_ROWS, KEPT_VOLUME_ROOM};
use crate::opening::NotBegun;
use crate::tray::Tray;
use sng_bounds::unix_clock::UnixClock;
use sng_desk::{Desk, Share};
use sng_grants::Policy;
use sng_operator::ask::Ask;
use sng_operator::lists::Lists;
use sng_operator::roles::OTHERS;
use sng_scope::read_policy;
use sng_signals::level::Level;
use sng_times::Time;
use std::alloc::Global;
use std::rt::Clock;
use std::sync::Wait;

/// What stands before a worker begins: the desk behind its first acts, and the shares of the workers.
#[derive(Drop)]
pub struct Prepared<'a, R: Wait> {
    pub desk: Desk,
    pub shares: Vec<Share>,
    pub clock: UnixClock,
    pub first: FirstEnd<Tray<'a, R>>,
}

/// Makes the desk, sets its clock, brings the policy of the start into force, and hands off what came of it.
pub fn prepare<'a, R: Wait + Clock + AllocGlobal>(
    rt: &'a R,
    hub: &'a Hub,
    ask: &Ask,
) -> Result<Prepared<'a, R>, NotBegun> {
    let clock = unix_clock(rt)?;
    let shares = ask.workers.saturating_add(OTHERS + 1);
    let (mut desk, mut shares) = Desk::new(rt.alloc(), FULL_ROWS, shares)?;
    if hub.handover.is_kept {
        desk.set_room(KEPT_VOLUME_ROOM);
    }
    let first = act_first(rt, hub, &mut desk, &mut shares, ask, &clock)?;
    Ok(Prepared {
        desk,
        shares,
        clock,
        first,
    })
}

/// Makes the first acts at the desk, and hands off what came of them.
fn act_first<'a, R: Wait + AllocGlobal>(
    rt: &'a R,
    hub: &'a Hub,
    desk: &mut Desk,
    shares: &mut Vec<Share>,
    ask: &Ask,
    clock: &UnixClock,
) -> Result<FirstEnd<Tray<'a, R>>, NotBegun> {
    let beginning = begin_first(rt, hub, desk, shares, ask, clock)?;
    hub.handover.room.note_made(desk.rows_made());
    hand_off_first(rt, hub, beginning)
}

/// Hands off what the first acts made, where the book goes to disk: no row behind it could go there before.
fn hand_off_first<'a, R: Wait>(
    rt: &'a R,
    hub: &'a Hub,
    beginning: Beginning,
) -> Result<FirstEnd<Tray<'a, R>>, NotBegun> {
    let first = beginning.hand_off(Tray::new(rt, hub));
    if hub.handover.is_kept && !first.rest.receipts.as_slice().is_empty() {
        return Err(NotBegun::Memory);
    }
    Ok(first)
}

/// Sets the clock, brings the policy of the start into force, and tells both.
fn begin_first<R: AllocGlobal>(
    rt: &R,
    hub: &Hub,
    desk: &mut Desk,
    shares: &mut Vec<Share>,
    ask: &Ask,
    clock: &UnixClock,
) -> Result<Beginning, NotBegun> {
    let Some(share) = shares.pop() else {
        return Err(NotBegun::Memory);
    };
    let policy = first_policy(rt.alloc(), ask)?;
    let lists = match &policy {
        Some(policy) => Some(Lists::of(policy)),
        None => None,
    };
    let now = clock.ms(clock.begun);
    let beginning = begin(rt.alloc(), desk, share, now, policy)?;
    hub.note_clock(now);
    hub.tell(Level::Info, format_args!("clock: {}", Time(now)));
    if let Some(lists) = lists {
        hub.tell(Level::Info, format_args!("policy in force: {lists}"));
    }
    Ok(beginning)
}

/// The policy of the start, where there is one. Its text was read before, so only memory can be wanting.
fn first_policy(alloc: Global, ask: &Ask) -> Result<Option<Policy>, NotBegun> {
    let Some(file) = &ask.policy else {
        return Ok(None);
    };
    match read_policy(alloc, file.text.as_slice()) {
        Ok(policy) => Ok(Some(policy)),
        Err(_) => Err(NotBegun::Memory),
    }
}
