//! What is right of topic ids (MQTT-SN 1.2, 6.5), and the limit's number. Each function states one law: its
//! contract is the law, and calling it does nothing.
ghost use Rattle.std.specs.Prelude.{◌≡◌};
ghost use Rattle.sng_ids.specs.declared.limits.TheConstants.{MAX_TOPIC_IDS};
ghost use Rattle.sng_ids.specs.Laws.{IdsNameWhatTheyWereGivenFor, IdsKeepTheirNames, TakingBackUndoesGiving};

/// The id that a name is given, its old one or a new one, names it.
pub fn ids_name_what_they_were_given_for()
    ensures { IdsNameWhatTheyWereGivenFor }
{}

/// An id keeps its name, whatever name is given an id later.
pub fn ids_keep_their_names()
    ensures { IdsKeepTheirNames }
{}

/// To take back undoes that a name without an id was given one.
pub fn taking_back_undoes_giving()
    ensures { TakingBackUndoesGiving }
{}

/// The number of the limit.
pub fn limits()
    ensures { MAX_TOPIC_IDS ≡ 128 }
{}
