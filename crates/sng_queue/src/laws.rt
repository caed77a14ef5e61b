//! The law of the queue, and the limits' numbers. Each function only states its law: its contract is the law,
//! and calling it does nothing.
ghost use Rattle.std.specs.Prelude.{◌≡◌};
ghost use Rattle.sng_queue.specs.declared.limits.TheConstants.{MAX_QUEUED, MAX_TRIES, MAX_WAITING_NAME};
ghost use Rattle.sng_queue.specs.declared.limits.TheConstants.{MAX_WAITING_PAYLOAD};
ghost use Rattle.sng_queue.specs.Laws.{MessagesStayInOrder};

/// Messages leave in the order in which they came. To settle takes the front alone; to announce, to hand over
/// and to send again take none away.
pub fn messages_stay_in_order()
    ensures { MessagesStayInOrder }
{}

/// The numbers of the limits.
pub fn limits()
    ensures queued { MAX_QUEUED ≡ 64 }
    ensures tries { MAX_TRIES ≡ 3 }
    ensures payload { MAX_WAITING_PAYLOAD ≡ 2039 }
    ensures name { MAX_WAITING_NAME ≡ 2040 }
{}
