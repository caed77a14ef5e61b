//! What is right of a client's will (MQTT-SN 1.2, 6.2 and 6.4). Each function states one law: its contract
//! is the law, and calling it does nothing.
ghost use Rattle.sng_wills.specs.Laws.{WillsAreWhatWasStatedLast, StoppedDialoguesStateNothing};

/// Whatever happened to the dialogue, the will is of the topic that was stated last since it was deleted
/// last, and of the message that was stated last since then, or of the empty one. A WILLTOPIC counts only
/// once the WILLMSG of its dialogue came.
pub fn wills_are_what_was_stated_last()
    ensures { WillsAreWhatWasStatedLast }
{}

/// A dialogue that was stopped leaves the will, and no WILLTOPIC or WILLMSG goes on with it.
pub fn stopped_dialogues_state_nothing()
    ensures { StoppedDialoguesStateNothing }
{}
