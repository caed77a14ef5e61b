//! What is done before anybody is listened to: the clock is set, and the policy of the start is put in force. The
//! rows of that are the first, under a tag of their own.
ghost use Rattle.std.specs.Prelude.{◌≡◌, ◌++◌, OnOk, OnErr};
ghost use Rattle.sng_desk.specs.Acts.{no_trail};
ghost use Rattle.sng_desk.specs.Pieces.{HandsOff, IsLeft, piece_of};
ghost use Rattle.sng_serve.specs.Beginnings.{Acted, events_in, first_events};

use sng_book::Event;
use sng_desk::{ActFault, Desk, Filer, Filing, Log, Piece, Share};
use sng_grants::Policy;
use std::alloc::Global;

/// What the first acts made.
#[derive(Drop)]
pub struct Beginning {
    pub log: Log,
    pub share: Share,
}

/// What is left of it, as a worker leaves it.
#[derive(Drop)]
pub struct FirstEnd<F> {
    /// What was not handed off.
    pub rest: Piece,
    pub share: Share,
    pub filing: F,
}

impl Beginning {
    /// Nothing is done yet.
    pub fn new(alloc: Global, share: Share) -> Beginning
        ensures trail { result.log.trail ≡ no_trail share.tag }
        ensures share { result.share ≡ share }
    {
        let log = Log::new(alloc, share.tag());
        Beginning { log, share }
    }

    /// Acts on the event. An `Err` leaves the rows, and what is said of them, as they were.
    pub fn act(&mut self, desk: &mut Desk, event: Event) -> Result<(), ActFault>
        ensures ok { OnOk result (Acted event desk.new.before desk.old.rows desk.new.rows self.old.log.trail
            self.new.log.trail self.old.share self.new.share) }
        ensures err { OnErr result ((desk.new.rows ≡ desk.old.rows)
            × (self.new.log.trail ≡ self.old.log.trail) × (self.new.share ≡ self.old.share)) }
    {
        if self.log.room(1).is_err() {
            return Err(ActFault::Memory);
        }
        self.log.accept(desk.act(&mut self.share, event)?);
        Ok(())
    }

    /// Hands off what it says of the acts, where the filing takes it.
    pub fn hand_off<F: Filing<Piece>>(self, filing: F) -> FirstEnd<F>
        ensures off { HandsOff F.tells F.took filing (piece_of 0 self.log.trail) result.filing result.rest }
        ensures left { IsLeft result.rest (F.handed_back result.filing) }
        ensures share { result.share ≡ self.share }
    {
        let Beginning { mut log, share } = self;
        let mut filer = Filer { filing, place: 0 };
        filer.hand_off(&mut log);
        let Filer { filing, place } = filer;
        FirstEnd {
            rest: log.into_piece(place),
            share,
            filing,
        }
    }
}

/// Sets the clock to this many ms, and puts the policy in force, where there is one: each is a row, in this
/// order. An `Err` may leave the first of them behind.
pub fn begin(
    alloc: Global,
    desk: &mut Desk,
    share: Share,
    now: u64,
    policy: Option<Policy>,
) -> Result<Beginning, ActFault>
    ensures { OnOk result (events_in desk.new.rows ≡ events_in desk.old.rows ++ first_events now policy) }
{
    let mut beginning = Beginning::new(alloc, share);
    beginning.act(desk, Event::Tick(now))?;
    if let Some(policy) = policy {
        beginning.act(desk, Event::Replace(policy))?;
    }
    Ok(beginning)
}
