//! The numbers of this crate, which its `limits` has as constants.

ghost use Rattle.std.specs.Prelude.{◌≡◌};

use crate::{MAX_OPEN_SUBSCRIBES, PING_MS, RETRY_MS};

/// How many SUBSCRIBEs may be open; and, in ms, when a PINGREQ is due, and when a REGISTER or a PUBLISH that
/// was not answered is sent again.
pub fn limits()
    ensures open { MAX_OPEN_SUBSCRIBES ≡ 49534 }
    ensures ping { PING_MS ≡ 30000 }
    ensures retry { RETRY_MS ≡ 10000 }
{}
