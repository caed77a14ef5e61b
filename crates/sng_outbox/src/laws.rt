//! The laws of the outbox (MQTT 3.1.1, 2.3.1, 4.3.2 and 4.6). The functions here only state them: a contract
//! is the law, and a call does nothing.
ghost use Rattle.sng_outbox.specs.Laws.{NextIdIsFree, MarksFollowUse, UndoneIsUnused, OneIsAcknowledged};
ghost use Rattle.sng_outbox.specs.Laws.{PublishesAreKept};

/// The next packet id is not 0, is not in use, and is the first such id counted on from the last one.
pub fn next_id_is_free()
    ensures { NextIdIsFree }
{}

/// The marks of the packet ids follow the ids in use, as one is taken into use and as one is free again.
pub fn marks_follow_use()
    ensures { MarksFollowUse }
{}

/// An id that is taken into use and freed again, or freed and taken again, leaves the numbering as it was.
pub fn undone_is_unused()
    ensures { UndoneIsUnused }
{}

/// A PUBACK removes the first publish in flight with its packet id and nothing else, and where there is none
/// nothing at all.
pub fn one_is_acknowledged()
    ensures { OneIsAcknowledged }
{}

/// Where publishes alone are kept, it is all of them, in their order.
pub fn publishes_are_kept()
    ensures { PublishesAreKept }
{}
