//! The QoS bits of the Flags octet (MQTT-SN 1.2, 5.3.4), with the levels that the gateway does not grant.

use sng_text::Qos;

/// The quality of service that a frame states.
#[derive(Clone, Copy, Debug, PartialEq, Eq)]
pub enum FrameQos {
    /// Level 0, bits 00.
    AtMostOnce,
    /// Level 1, bits 01.
    AtLeastOnce,
    /// Level 2, bits 10.
    ExactlyOnce,
    /// Level -1, bits 11: a PUBLISH without a connection.
    WithoutSession,
}

impl FrameQos {
    ghost use Rattle.std.specs.Prelude.{◌≡◌};
    ghost use Rattle.sng_frames.specs.Levels.{granted_level};

    /// The level that is granted where this one is asked for by a subscription or a will: 2 counts as 1, and
    /// -1 as 0.
    pub fn granted(self) -> Qos
        ensures { result ≡ granted_level self }
    {
        match self {
            FrameQos::AtMostOnce | FrameQos::WithoutSession => Qos::AtMostOnce,
            FrameQos::AtLeastOnce | FrameQos::ExactlyOnce => Qos::AtLeastOnce,
        }
    }
}

impl From<Qos> for FrameQos {
    ghost use Rattle.std.specs.Prelude.{◌≡◌};
    ghost use Rattle.sng_frames.specs.Levels.{stated_level};

    ghost from_gives = { λ granted stated. stated ≡ stated_level granted };

    fn from(granted: Qos) -> FrameQos {
        match granted {
            Qos::AtMostOnce => FrameQos::AtMostOnce,
            Qos::AtLeastOnce => FrameQos::AtLeastOnce,
        }
    }
}
