//! The laws of the broker. The functions here only state them: a contract is the law, and a call does
//! nothing.
ghost use Rattle.sng_broker.specs.Laws.{OneCopyEach, RetainedAreReplayed};

/// Where no connection is there twice, as in each `BrokerCore`, a message goes once to each connection with a
/// filter that matches its name, at the smaller QoS, and to no other.
pub fn one_copy_each()
    ensures { OneCopyEach }
{}

/// Who subscribes gets each retained message that the filter matches, once and in order, at the smaller QoS.
pub fn retained_are_replayed()
    ensures { RetainedAreReplayed }
{}
