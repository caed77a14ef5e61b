//! The numbers of `crate::limits`, once more.
ghost use Rattle.std.specs.Prelude.{◌≡◌};

use crate::limits::{MAX_PACKETS, MAX_READ, MAX_TURN_EVENTS};

/// The limits of a turn at the connection to the broker.
pub fn limits()
    ensures read { MAX_READ ≡ 4096 }
    ensures packets { MAX_PACKETS ≡ 2049 }
    ensures events { MAX_TURN_EVENTS ≡ 2052 }
{}
