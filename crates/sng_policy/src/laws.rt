//! What is right of a policy's answers. The functions here only state it: their contracts are the laws, and
//! calling them does nothing.
ghost use Rattle.sng_policy.specs.Laws.{NamesAreExact, SubscriptionsAreExact, SubscribingIsReceiving};

/// An answer about a name is right exactly where it is what the policy says: allowed where whoever asks is
/// listed and some pair with the permission matches the name, and a denial names what is missing.
pub fn names_are_exact()
    ensures { NamesAreExact }
{}

/// An answer about a subscription is right exactly where it is what the policy says: allowed where the client
/// is listed and every name that the filter matches is granted to it for subscribing, and a denial shows the
/// gap.
pub fn subscriptions_are_exact()
    ensures { SubscriptionsAreExact }
{}

/// Where a subscription is allowed, each name that its filter matches may be received. Where it is uncovered,
/// the filter matches the gap, and the gap may not be received.
pub fn subscribing_is_receiving()
    ensures { SubscribingIsReceiving }
{}
