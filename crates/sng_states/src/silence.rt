//! How long a client may stay silent (MQTT-SN 1.2, 6.11; one and a half times the Keep Alive, as in MQTT
//! 3.1.1, 3.1.2.10).
ghost use Rattle.std.specs.Prelude.{◌≡◌};
ghost use Rattle.sng_states.specs.Silence.{overdue};

use crate::SILENCE_MS_PER_SECOND;

/// Whether a client with this Duration, in seconds, last heard at `heard`, is overdue at `clock`, both in
/// milliseconds: whether `SILENCE_MS_PER_SECOND` or more passed for each second of the Duration. A Duration
/// of 0 is no limit, and where `clock` is before `heard` no time passed. Takes no memory.
pub fn overdue(duration: u16, heard: u64, clock: u64) -> bool
    ensures { result ≡ overdue duration heard clock }
{
    duration > 0 && clock.saturating_sub(heard) >= u64::from(duration) * SILENCE_MS_PER_SECOND
}
