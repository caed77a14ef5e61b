//! What is right of the table of states (MQTT-SN 1.2, 6.14) and of the open MsgIds of a client, and the
//! limits' numbers. Each function states one law: its contract is the law, and calling it does nothing.
ghost use Rattle.std.specs.Prelude.{◌≡◌};
ghost use Rattle.sng_states.specs.declared.limits.TheConstants.{SILENCE_MS_PER_SECOND, MAX_OPEN_IDS};
ghost use Rattle.sng_states.specs.Laws.{SessionsBeginByConnect, WakingIsFromSleep, MessagesNeedASession};
ghost use Rattle.sng_states.specs.Laws.{SleepKeepsMessages};
ghost use Rattle.sng_states.specs.LawsOpenIds.{AdmittedIsOpen, ClosedIsNotOpen, FewAreOpen, OneListForASet};

use crate::{MAX_OPEN_IDS, SILENCE_MS_PER_SECOND};

/// A client without a session, which has left or is lost, gets one by a CONNECT, and nothing else moves it.
pub fn sessions_begin_by_connect()
    ensures { SessionsBeginByConnect }
{}

/// A client is awake only where it was asleep and has just asked for what waits.
pub fn waking_is_from_sleep()
    ensures { WakingIsFromSleep }
{}

/// Messages are handed over only to a client that is due them, and such a client has a session.
pub fn messages_need_a_session()
    ensures { MessagesNeedASession }
{}

/// A client that falls asleep, wakes up or has got all that waited was due messages and still is.
pub fn sleep_keeps_messages()
    ensures { SleepKeepsMessages }
{}

/// An id that is admitted is open, and one that is closed is not; neither moves another id.
pub fn ids_open_and_close()
    ensures admitted { AdmittedIsOpen }
    ensures closed { ClosedIsNotOpen }
{}

/// No more ids are open than may be, each once, and the list that contracts see is that of the set.
pub fn open_ids_are_a_set()
    ensures few { FewAreOpen }
    ensures one { OneListForASet }
{}

/// The limits: the silence that a second of a Duration allows, in ms, and the MsgIds that may be open.
pub fn limits()
    ensures silence { SILENCE_MS_PER_SECOND ≡ 1500 }
    ensures open_ids { MAX_OPEN_IDS ≡ 16 }
{}
