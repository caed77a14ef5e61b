//! The laws of the wanted filters. The functions here only state them: a contract is the law, and a call does
//! nothing.
ghost use Rattle.sng_wanted.specs.Laws.{FirstStandingDecides};

/// The order is that of first standing: where F is asked for, then G, and then F again, it is F, G; and once
/// F ended and is asked for anew, it is G, F.
pub fn first_standing_decides()
    ensures { FirstStandingDecides }
{}
