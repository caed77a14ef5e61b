//! The time before a line, as RFC 3339 writes it, in UTC and to the second.
ghost use Rattle.std.specs.Prelude.{◌≡◌, codes};
ghost use Rattle.sng_archive.specs.Utc.{IsTime};
ghost use Rattle.sng_signals.specs.Stamps.{digits_of, signs_of};

use sng_archive::utc;

/// The time `YYYY-MM-DDTHH:MM:SSZ` at a number of seconds since 1970.
pub fn stamp(seconds: u64) -> [u8; 20]
    ensures digits { IsTime seconds (digits_of result) }
    ensures signs { signs_of result ≡ codes "--::" }
{
    let [a, b, c, d, e, f, g, h, t, i, j, k, l, m, n, z] = utc::text(seconds);
    [
        a, b, c, d, b'-', e, f, b'-', g, h, t, i, j, b':', k, l, b':', m, n, z,
    ]
}
