//! The laws of texts. Each function here only states one: its contract is the law, and calling it does
//! nothing.
ghost use Rattle.std.specs.Prelude.{◌≡◌};
ghost use Rattle.sng_text.specs.Laws.{ClientIdsAreCharacters, NamesMatchThemselves, LevelsAreParts};
ghost use Rattle.sng_text.specs.Laws.{AddressesAreDecimal};

use crate::{MAX_CLIENT_ID, MAX_FILTER, MAX_NAME};

/// The limits of texts: bytes of a name and of a filter, characters of a client id.
pub fn limits()
    ensures name { MAX_NAME ≡ 65535 }
    ensures filter { MAX_FILTER ≡ 200 }
    ensures client_id { MAX_CLIENT_ID ≡ 23 }
{}

/// The client ids are the UTF-8 of 1 to `MAX_CLIENT_ID` characters without U+0000 (MQTT-SN 1.2, 5.3.1).
pub fn client_ids_are_characters()
    ensures { ClientIdsAreCharacters }
{}

/// A name, taken as a filter, matches itself and no other name (MQTT 3.1.1, 4.7.3).
pub fn names_match_themselves()
    ensures { NamesMatchThemselves }
{}

/// The levels of a text are its parts between the slashes, as std splits it (MQTT 3.1.1, 4.7.1.1).
pub fn levels_are_parts()
    ensures { LevelsAreParts }
{}

/// A text is the address a.b.c.d exactly where a, b, c and d are below 256 and the text is those numbers in
/// decimal, without leading zeros, joined by points.
pub fn addresses_are_decimal()
    ensures { AddressesAreDecimal }
{}
