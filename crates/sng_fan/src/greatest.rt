//! The greater of two QoS.
ghost use Rattle.std.specs.Prelude.{◌≡◌};
ghost use Rattle.sng_fan.specs.Greatest.{greater, raised};

use sng_text::Qos;

/// The greater of two QoS, in the order of their levels, 0 and 1.
pub fn greater(a: Qos, b: Qos) -> Qos
    ensures { result ≡ greater a b }
{
    match a {
        Qos::AtMostOnce => b,
        Qos::AtLeastOnce => Qos::AtLeastOnce,
    }
}

/// The greatest QoS so far, with one more.
pub(crate) fn raised(greatest: Option<Qos>, qos: Qos) -> Qos
    ensures { result ≡ raised greatest qos }
{
    match greatest {
        None => qos,
        Some(greatest) => greater(greatest, qos),
    }
}
