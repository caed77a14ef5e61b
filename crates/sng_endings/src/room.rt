//! The room for publishes once some subscriptions have ended: each filter that stands for nobody then takes a
//! place for its UNSUBSCRIBE. The endings are tried on who holds what, and nothing else is moved.
ghost use Rattle.std.specs.Prelude.{◌≡◌, List, None, IfOk};
ghost use Rattle.sng_endings.specs.Replacing.{moved, all_next, room_left};
ghost use Rattle.sng_history.specs.Clients.{Client};
ghost use Rattle.sng_history.specs.Standing.{is_held};
ghost use Rattle.sng_link.specs.Rooms.{room_of};
ghost use Rattle.sng_sessions.specs.Kept.{Keeps};
ghost use Rattle.sng_standing.specs.Standing.{MovesAt};

use crate::SubscriptionEnd;
use sng_grants::Limits;
use sng_link::{Link, Room};
use sng_sessions::Sessions;
use sng_standing::Standing;
use std::alloc::{AllocError, Global};

/// The room that the limits leave once these have ended. Only memory can fail.
pub fn room_after(
    alloc: Global,
    endings: &[SubscriptionEnd],
    limits: Limits,
    sessions: &Sessions,
    link: &Link,
) -> Result<Room, AllocError>
    ensures { IfOk result (λ room. room
        ≡ room_of limits (all_next limits (moved link.now.link sessions.now) endings.now).link) }
{
    let mut standing = sessions.holdings(alloc)?;
    let mut room = link.room_left(limits);
    for ending in endings {
        try_end(ending, &mut standing, &mut room);
    }
    Ok(room)
}

/// One ends: where nobody holds its filter then, that takes a place, if there is one. Takes no memory.
fn try_end(ending: &SubscriptionEnd, standing: &mut Standing, room: &mut Room)
    ensures held { MovesAt standing.old standing.new ending.now.place ending.now.filter None }
    ensures room { (xs : List Client) → Keeps standing.new xs
        → room.new ≡ room_left (is_held xs ending.now.filter) room.old }
{
    standing.end(ending.place, &ending.filter);
    let is_held = standing.is_held(&ending.filter);
    *room = left(*room, is_held);
}

/// What is left of the room once a filter has ended that somebody holds still, or nobody.
fn left(room: Room, is_held: bool) -> Room
    ensures { result ≡ room_left is_held room }
{
    if is_held {
        return room;
    }
    Room {
        places: room.places.saturating_sub(1),
        flights: room.flights,
    }
}
