//! The laws of decoding and encoding. Each function here only states one: its contract is the law, and
//! calling it does nothing.
ghost use Rattle.std.specs.Prelude.{◌≡◌, ◌+◌};
ghost use Rattle.sng_frames.specs.declared.limits.TheConstants.{MAX_DATAGRAM, MAX_PAYLOAD};
ghost use Rattle.sng_frames.specs.declared.limits.TheConstants.{MAX_REGISTERED_NAME, MAX_SHORT_LENGTH};
ghost use Rattle.sng_frames.specs.declared.return_code.TheConstants.ReturnCode.{ACCEPTED, CONGESTION};
ghost use Rattle.sng_frames.specs.declared.return_code.TheConstants.ReturnCode.{INVALID_TOPIC_ID};
ghost use Rattle.sng_frames.specs.declared.return_code.TheConstants.ReturnCode.{NOT_SUPPORTED};
ghost use Rattle.sng_frames.specs.Laws.{ReadsTheGrammar, RefusesTheUnsupported, RefusesTheRest};
ghost use Rattle.sng_frames.specs.Laws.{SpellsOne, SpellsNoneUnsupported};
ghost use Rattle.sng_frames.specs.Laws.{WritesASpelling, WritesTheSpelled, WritesTheShortest};
ghost use Rattle.sng_frames.specs.Laws.{ReadsWhatIsWritten};

/// The limit of a datagram, what follows for its parts, and the bound that the standard sets a Length of one
/// octet (MQTT-SN 1.2, 5.2.1).
pub fn limits()
    ensures datagram { MAX_DATAGRAM ≡ 2048 }
    ensures payload { MAX_PAYLOAD + 9 ≡ MAX_DATAGRAM }
    ensures registered_name { MAX_REGISTERED_NAME + 8 ≡ MAX_DATAGRAM }
    ensures short_length { MAX_SHORT_LENGTH ≡ 255 }
{}

/// The ReturnCodes that have a name, as the octets that they are (5.3.10).
pub fn return_codes()
    ensures accepted { ACCEPTED.0 ≡ 0 }
    ensures congestion { CONGESTION.0 ≡ 1 }
    ensures invalid_topic_id { INVALID_TOPIC_ID.0 ≡ 2 }
    ensures not_supported { NOT_SUPPORTED.0 ≡ 3 }
{}

/// A frame is decoded exactly from the bytes that spell it, up to `MAX_DATAGRAM` of them.
pub fn reading_is_the_grammar()
    ensures { ReadsTheGrammar }
{}

/// Not supported are just gateway discovery and forwarder encapsulation, in up to `MAX_DATAGRAM` bytes.
pub fn unsupported_is_reported()
    ensures { RefusesTheUnsupported }
{}

/// Malformed are all other bytes.
pub fn the_rest_is_malformed()
    ensures { RefusesTheRest }
{}

/// No bytes spell two frames.
pub fn bytes_spell_one_frame()
    ensures { SpellsOne }
{}

/// What is not supported spells no frame.
pub fn unsupported_spells_no_frame()
    ensures { SpellsNoneUnsupported }
{}

/// A frame of at most `MAX_DATAGRAM` bytes whose fields fit is encoded as bytes that spell it.
pub fn what_is_written_is_spelled()
    ensures { WritesASpelling }
{}

/// A frame that has a spelling is written as one.
pub fn what_is_spelled_is_written()
    ensures { WritesTheSpelled }
{}

/// What is written is the shortest spelling, and the only one of its length.
pub fn the_shortest_is_written()
    ensures { WritesTheShortest }
{}

/// What is written is read again.
pub fn what_is_written_is_read()
    ensures { ReadsWhatIsWritten }
{}
