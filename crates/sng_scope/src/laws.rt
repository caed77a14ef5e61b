//! Laws of the definitions that the contracts cite. Each function does nothing: its contract is the law.
ghost use Rattle.sng_scope.specs.Bounds.{ScopesAreBounded, PoliciesAreBounded};
ghost use Rattle.sng_scope.specs.Laws.{TopicIdsAreDecimal, PoliciesAreReadBack, VersionsAreLeast};

/// A scope that a text gives has at most `MAX_PAIRS` pairs, each of a topic filter.
pub fn scopes_are_bounded()
    ensures { ScopesAreBounded }
{}

/// A policy that a text gives has each limit in its range, and lists no more client ids, addresses and topic
/// ids than these allow: the first two each with a scope as above, the last each with a topic name.
pub fn policies_are_bounded()
    ensures { PoliciesAreBounded }
{}

/// The text of a topic id is the number from 1 to 65534 in decimal, so that each id has one text (MQTT-SN
/// 1.2, 5.3.11).
pub fn topic_ids_are_decimal()
    ensures { TopicIdsAreDecimal }
{}

/// No text of a policy is of a lesser version than what is written of it.
pub fn versions_are_least()
    ensures { VersionsAreLeast }
{}

/// What is written of a policy that keeps to its bounds is read as this policy: each client, source and
/// topic, each pair in its place, and each permission.
pub fn policies_are_read_back()
    ensures { PoliciesAreReadBack }
{}
