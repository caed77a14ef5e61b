//! The laws of the fan. The functions here only state them: a contract is the law, and a call does nothing.
ghost use Rattle.std.specs.Prelude.{◌≡◌};
ghost use Rattle.sng_fan.specs.Laws.{GreatestIsGreatest, StandsAnew, StandsLast};

use crate::MAX_SUBSCRIPTIONS;

/// The limit.
pub fn limits()
    ensures { MAX_SUBSCRIPTIONS ≡ 32 }
{}

/// Where no filter of a client matches a name there is no greatest QoS; else it is that of a filter that
/// matches, and no other that matches has a greater one.
pub fn greatest_is_greatest()
    ensures { GreatestIsGreatest }
{}

/// A filter that is granted to a client again stands in its old place, at the QoS that is granted now; one
/// that did not stand comes last. All others stand as they did (MQTT-SN 1.2, 6.9; MQTT 3.1.1, 3.8.4).
pub fn filters_stand_anew()
    ensures again { StandsAnew }
    ensures last { StandsLast }
{}
