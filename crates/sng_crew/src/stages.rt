//! How the worker at the connection stands between two turns.
ghost use Rattle.std.specs.Prelude.{◌≡◌, ◌⊎◌, true, false};
ghost use Rattle.sng_crew.specs.declared.connection.Stage.TheVariants.{Away};
ghost use Rattle.sng_crew.specs.Turning.{Below, IsGoing, is_connected, may_try, next_stage};

use crate::connection::{Close, Stage};

/// What a turn did to the connection.
#[derive(Clone, Copy, Debug, PartialEq, Eq)]
pub struct TurnEnd {
    /// What became of it.
    pub close: Close,
    /// It was made in this turn.
    pub opened: bool,
    /// The broker accepted it, before or in this turn.
    pub greeted: bool,
    /// It was up.
    pub up: bool,
    /// The desk took its loss, where it was lost.
    pub told: bool,
}

impl TurnEnd {
    /// A turn that tried to connect: no connection was up.
    pub fn of_try(close: Close, opened: bool) -> TurnEnd
        ensures { result ≡ record {
          close = close;
          opened = opened;
          greeted = false;
          up = false;
          told = true;
        } }
    {
        TurnEnd {
            close,
            opened,
            greeted: false,
            up: false,
            told: true,
        }
    }
}

/// How a worker stands after a turn that it began so.
pub fn stage_next(stage: Stage, turn: TurnEnd, tries: u32) -> Stage
    requires below { Below tries stage }
    requires again { may_try tries stage ≡ true ⊎ is_connected stage ≡ true }
    ensures next { result ≡ next_stage stage turn.close turn.opened turn.greeted turn.up turn.told }
    ensures below { Below tries result }
{
    if let Close::Stays = turn.close {
        return match stage {
            Stage::Away(n) if turn.opened => Stage::Greeting(n),
            Stage::Greeting(_) if turn.greeted => Stage::Open,
            _ => stage,
        };
    }
    if turn.up {
        return if turn.told {
            Stage::Away(0)
        } else {
            Stage::Fallen
        };
    }
    match stage {
        Stage::Away(n) | Stage::Greeting(n) => Stage::Away(n + 1),
        _ => stage,
    }
}

/// Whether as many tries failed as may.
pub fn has_given_up(stage: Stage, tries: u32) -> bool
    ensures yes { result ≡ true → stage ≡ Away tries }
    ensures no { result ≡ false → Below tries stage → IsGoing tries stage }
{
    if let Stage::Away(n) = stage {
        n == tries
    } else {
        false
    }
}
