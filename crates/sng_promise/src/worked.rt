//! Worked rows: histories that are lawful by the definitions, and rows that are not.
ghost use Rattle.std.specs.Prelude.{◌∷◌, [], codes};
ghost use Rattle.sng_book.specs.declared.event.Event.TheVariants.{Datagram, Broker, Up, Take, Replace, Tick};
ghost use Rattle.sng_book.specs.declared.decision.Decision.TheVariants.{Left};
ghost use Rattle.sng_book.specs.declared.outcome.Denial.TheVariants.{Grant};
ghost use Rattle.sng_book.specs.declared.outcome.GrantDenial.TheVariants.{MissingPub};
ghost use Rattle.sng_book.specs.declared.outcome.Outcome.TheVariants.{Allowed, Denied};
ghost use Rattle.sng_book.specs.declared.out.Out.TheVariants.{Note};
ghost use Rattle.sng_history.specs.State.{opening};
ghost use Rattle.sng_history.specs.Books.{LawfulBook};
ghost use Rattle.sng_history.specs.Lawful.{LawfulRow, Lawful};
ghost use Rattle.sng_promise.specs.Examples.{source, at, publish_ab, publish_ab_long, asked_ab, forward_ab};
ghost use Rattle.sng_promise.specs.Examples.{packet_ab, stored_run};
ghost use Rattle.sng_promise.specs.Examples.{unknown_source, without_up, strangers, replaced_while_waiting};
ghost use Rattle.sng_promise.specs.Examples.{kept_while_down};
ghost use Rattle.sng_promise.specs.Examples.{waits, waits_replaced, waits_down};
ghost use Rattle.sng_promise.specs.ExamplesBooks.{denied_at_its_end, let_out_at_its_end};
ghost use Rattle.sng_promise.specs.ExamplesBooks.{ended_at_its_end, kept_at_its_end};
ghost use Rattle.sng_promise.specs.ExamplesLimits.{lets_one, finds_full, no_place, refused_since, let_in_since};
ghost use Rattle.sng_promise.specs.ExamplesLimits.{answered, comes_again, at_less, at_more, at_both};
ghost use Rattle.sng_promise.specs.ExamplesClients.{home, away, s1, s2, connect_s1, connect_s2, disconnect};
ghost use Rattle.sng_promise.specs.ExamplesClients.{lets_in, welcome, bye};
ghost use Rattle.sng_promise.specs.ExamplesClients.{not_listed, moves, takes_over, goes, pings, at_home};
ghost use Rattle.sng_promise.specs.ExamplesClients.{t1, t2, publish_t1, asks_t1, forward_t1, again_t1};
ghost use Rattle.sng_promise.specs.ExamplesClients.{packet_t1, refused_t1};
ghost use Rattle.sng_promise.specs.ExamplesClients.{both_listed, ended_ab, holds_ab};
ghost use Rattle.sng_promise.specs.ExamplesClients.{untold, acknowledged_t1, knows_t1, flies_and_waits};
ghost use Rattle.sng_promise.specs.ExamplesClients.{flies_ungranted};
ghost use Rattle.sng_promise.specs.ExamplesClients.{message_ab, accept_ab, hands_ab, handed_ab};
ghost use Rattle.sng_promise.specs.ExamplesClients.{ping_s1, pong, announces_ab, announcement_ab};
ghost use Rattle.sng_promise.specs.ExamplesOnce.{repeat_5, received_5, release_5, counted_5, anew_5, has_open};
ghost use Rattle.sng_promise.specs.ExamplesSleep.{sleeps_again, is_asleep, is_buffered};
ghost use Rattle.sng_promise.specs.ExamplesSleep.{answered_one, given_up, is_tried_out, retries_ab};
ghost use Rattle.sng_promise.specs.ExamplesSleep.{handed_again};
ghost use Rattle.sng_promise.specs.ExamplesClients.{handed_over_ab, denied_ab, once_ab, announced_ungranted};
ghost use Rattle.sng_promise.specs.ExamplesClients.{holds_both};
ghost use Rattle.sng_promise.specs.ExamplesWills.{topic_t2, asks_message, states, ping_broker, packet_twice};
ghost use Rattle.sng_promise.specs.ExamplesWills.{will_refused, will_published, will_unpublished};
ghost use Rattle.sng_promise.specs.ExamplesWills.{awaits_topic, is_silent, is_lost};

/// Lawful histories of devices without a session: a publish that is granted goes out, with a Length of one
/// octet or of three; a source that is not listed and one without a connection are denied; a session that is
/// not there and what is not a frame are noted; a publish whose grant was replaced while it waited is denied
/// as it leaves; and one that waits while the connection is down leaves over the next one.
pub fn lawful_rows()
    ensures short { Lawful opening (stored_run publish_ab) }
    ensures long { Lawful opening (stored_run publish_ab_long) }
    ensures unknown { Lawful opening unknown_source }
    ensures down { Lawful opening without_up }
    ensures answered { Lawful opening strangers }
    ensures replaced { Lawful opening replaced_while_waiting }
    ensures kept { Lawful opening kept_while_down }
{}

/// Rows that may not come: a packet without its note, a take that keeps everything back, a publish that is
/// not judged as it leaves, one that leaves while the connection is down, the outs of another event, and a
/// denial of what is granted.
pub fn unlawful_rows()
    ensures unnoted { LawfulRow waits Take (packet_ab ∷ []) → ⊥ }
    ensures kept_back { LawfulRow waits Take [] → ⊥ }
    ensures unjudged { LawfulRow waits_replaced Take (forward_ab Allowed ∷ packet_ab ∷ []) → ⊥ }
    ensures while_down { LawfulRow waits_down Take (forward_ab Allowed ∷ packet_ab ∷ []) → ⊥ }
    ensures at_up { LawfulRow waits Up (forward_ab Allowed ∷ packet_ab ∷ []) → ⊥ }
    ensures denied { LawfulRow waits (Datagram (at source) publish_ab)
        (asked_ab source (Denied (Grant (MissingPub (codes "ab")))) ∷ []) → ⊥ }
{}

/// Lawful histories of clients: one that is listed is let in and one that is not is refused; a client that
/// comes from another address is dismissed where it was, and has no session there any more; one that comes to
/// the address of another puts that one out; a client leaves; and a PINGREQ that names another client has no
/// session, where one that names none is answered.
pub fn lawful_clients()
    ensures refused { Lawful opening not_listed }
    ensures moved { Lawful opening moves }
    ensures taken_over { Lawful opening takes_over }
    ensures left { Lawful opening goes }
    ensures pinged { Lawful opening pings }
{}

/// Rows that may not come while a client is at home: another one is let in there and the first is not told to
/// leave; it comes from elsewhere and where it was is not answered; and it takes its leave, which is not
/// noted.
pub fn unlawful_clients()
    ensures both_there { LawfulRow at_home (Datagram home connect_s2) (lets_in s2 ∷ welcome home ∷ []) → ⊥ }
    ensures unanswered { LawfulRow at_home (Datagram away connect_s1) (lets_in s1 ∷ welcome away ∷ []) → ⊥ }
    ensures unnoted { LawfulRow at_home (Datagram home disconnect) (bye home ∷ []) → ⊥ }
{}

/// Lawful histories of the limit of clients that a policy sets: a second client is refused by that of the policy in
/// force, though the policy before let in two (`less`), and let in by it, though the policy before let in one
/// (`more`). Once two were let in, a policy that lets in one puts nobody out: a client is answered (`answered`), and
/// may come again (`again`).
pub fn lawful_limits()
    ensures less { Lawful opening refused_since }
    ensures more { Lawful opening let_in_since }
    ensures answered { Lawful opening answered }
    ensures again { Lawful opening comes_again }
{}

/// Rows that may not come: a second client is let in, or refused, by the limit of the policy before; and a client
/// is put out by a policy that lets in one.
pub fn unlawful_limits()
    ensures let_in { LawfulRow at_less (Datagram away connect_s2) (lets_in s2 ∷ welcome away ∷ []) → ⊥ }
    ensures refused { LawfulRow at_more (Datagram away connect_s2) (finds_full s2 ∷ no_place away ∷ []) → ⊥ }
    ensures put_out { LawfulRow at_both (Replace (lets_one s2)) (Note (Left s1) ∷ []) → ⊥ }
{}

/// Lawful histories of what a client asks for: a REGISTER of a name that is not granted is refused, and a
/// PUBLISH under an id that was not told; and a publish at QoS 1 is accepted, leaves, is sent again over a
/// new connection, and no more once the broker acknowledged it.
pub fn lawful_asks()
    ensures refused { Lawful opening untold }
    ensures acknowledged { Lawful opening acknowledged_t1 }
{}

/// Rows that may not come: a publish leaves under the packet id of one that is in flight; one that is in
/// flight is sent again though it is not granted any more; and a PUBLISH is refused that is granted.
pub fn unlawful_asks()
    ensures reused { LawfulRow flies_and_waits Take (forward_t1 Allowed ∷ packet_t1 1 ∷ []) → ⊥ }
    ensures unjudged { LawfulRow flies_ungranted Up (again_t1 Allowed ∷ packet_t1 1 ∷ []) → ⊥ }
    ensures denied { LawfulRow knows_t1 (Datagram home publish_t1)
        (asks_t1 (Denied (Grant (MissingPub t1))) ∷ refused_t1 ∷ []) → ⊥ }
{}

/// Lawful histories of publishes at QoS 2: one is accepted, sent again and released twice, and leaves once; and
/// once its MsgId is released, the next publish with it is judged.
pub fn lawful_once()
    ensures counted { Lawful opening counted_5 }
    ensures anew { Lawful opening anew_5 }
{}

/// Rows that may not come while a MsgId is open: its repeat is judged and asks for the publish again; it is not
/// answered; and its PUBREL is not answered.
pub fn unlawful_once()
    ensures judged { LawfulRow has_open (Datagram home repeat_5) (asks_t1 Allowed ∷ received_5 ∷ []) → ⊥ }
    ensures unanswered { LawfulRow has_open (Datagram home repeat_5) [] → ⊥ }
    ensures uncompleted { LawfulRow has_open (Datagram home release_5) [] → ⊥ }
{}

/// A lawful history of a subscription: a SUBSCRIBE that is covered is allowed, and ends as the policy is
/// replaced by one that does not cover it.
pub fn lawful_subscriptions()
    ensures ended { Lawful opening ended_ab }
{}

/// A row that may not come: the policy is replaced, and a subscription that it does not cover does not end.
pub fn unlawful_subscriptions()
    ensures kept { LawfulRow holds_ab (Replace both_listed) [] → ⊥ }
{}

/// Lawful histories of messages of the broker: one under a name that the client does not know is announced,
/// and handed over once a REGACK accepts the id; one whose grant is replaced before the REGACK comes is
/// denied as its turn comes; and one whose name two filters match is handed over once.
pub fn lawful_messages()
    ensures announced { Lawful opening handed_over_ab }
    ensures ungranted { Lawful opening denied_ab }
    ensures once { Lawful opening once_ab }
{}

/// Rows that may not come: a message is handed over once its id is accepted, though the policy in force since
/// denies it; and one is handed over twice for two filters that match.
pub fn unlawful_messages()
    ensures unjudged { LawfulRow announced_ungranted (Datagram home accept_ab)
        (hands_ab Allowed ∷ handed_ab ∷ []) → ⊥ }
    ensures twice { LawfulRow holds_both (Broker message_ab)
        (hands_ab Allowed ∷ handed_ab ∷ hands_ab Allowed ∷ handed_ab ∷ []) → ⊥ }
{}

/// Lawful histories of wills: one whose topic is not granted ends the dialogue; the will of a client that is
/// silent for one and a half of its Duration leaves for the broker once that client is lost, between two
/// PINGREQs; and the will of a client that took its leave is not published.
pub fn lawful_wills()
    ensures refused { Lawful opening will_refused }
    ensures published { Lawful opening will_published }
    ensures unpublished { Lawful opening will_unpublished }
{}

/// Rows that may not come: the dialogue goes on with a topic that is not granted; a client is kept one tick
/// more than its Duration allows; and a will leaves at QoS 2, at which it was stated, where it is kept at 1.
pub fn unlawful_wills()
    ensures ungranted { LawfulRow awaits_topic (Datagram home topic_t2)
        (states t2 Allowed ∷ asks_message ∷ []) → ⊥ }
    ensures kept { LawfulRow is_silent (Tick 90000) [] → ⊥ }
    ensures exactly_once { LawfulRow is_lost Take (forward_t1 Allowed ∷ packet_twice ∷ ping_broker ∷ []) → ⊥ }
{}

/// Lawful histories of a client that sleeps, and of what is sent again. `asleep`: messages that come while it
/// sleeps wait; its PINGREQ wakes it, the id of their name is announced, and with the REGACK both are handed
/// over, behind which PINGRESP says that nothing is left; it sleeps again, and the next one waits.
/// `answered`: a message at QoS 1 that is not acknowledged in ten seconds is sent again with DUP, until a
/// PUBACK comes. `given_up`: after three tries without an answer the client is lost.
pub fn lawful_sleep()
    ensures asleep { Lawful opening sleeps_again }
    ensures answered { Lawful opening answered_one }
    ensures given_up { Lawful opening given_up }
{}

/// Rows that may not come: PINGRESP to a client that wakes while messages wait for it; a message for a client
/// that sleeps; and a fourth try.
pub fn unlawful_sleep()
    ensures early { LawfulRow is_buffered (Datagram home ping_s1)
        (announces_ab ∷ announcement_ab ∷ pong home ∷ []) → ⊥ }
    ensures asleep { LawfulRow is_asleep (Broker message_ab) (announces_ab ∷ announcement_ab ∷ []) → ⊥ }
    ensures fourth { LawfulRow is_tried_out (Tick 40000) (retries_ab Allowed ∷ handed_again ∷ []) → ⊥ }
{}

/// Lawful books whose scopes end: a publish that was allowed waits as the clock reaches the end of its grant, and
/// is denied as it leaves; and a subscription ends at the tick by which its grant does.
pub fn lawful_books()
    ensures denied { LawfulBook opening denied_at_its_end }
    ensures ended { LawfulBook opening ended_at_its_end }
{}

/// Books that no gateway writes: that publish leaves all the same; and that tick leaves the subscription standing.
pub fn unlawful_books()
    ensures let_out { LawfulBook opening let_out_at_its_end → ⊥ }
    ensures kept { LawfulBook opening kept_at_its_end → ⊥ }
{}
