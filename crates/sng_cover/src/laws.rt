//! What is right of the answers on inclusion (MQTT 3.1.1, 4.7).
ghost use Rattle.std.specs.Prelude.{ℕ, List};
ghost use Rattle.sng_cover.specs.Gaps.{AreFilters, IsRight};

/// Included is the answer exactly where every topic name that the asked filter matches is matched by a
/// granted filter, and a name is the answer exactly where it is the gap: a name of the least depth that the
/// asked filter matches and no granted one does, with the asked filter's literal at each literal place, and
/// at every other the shortest run of `x` that is no level of a granted filter.
pub fn answers_are_right()
    ensures { (asked : List ℕ) (granted : List (List ℕ)) → AreFilters asked granted → IsRight asked granted }
{}
