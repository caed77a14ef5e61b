//! The laws that hold in every lawful history: each function carries, as its contract, laws over all
//! histories that the gateway's steps can make. What their words mean stands in `sng_laws`, and which
//! histories are lawful in `sng_history`; no proof has to be read to know what they say.
#![tactic(auto)]

pub mod books;
pub mod once;
pub mod policies;
pub mod promise;
pub mod sleep;
pub mod subscriptions;
pub mod upstream;
pub mod wills;
pub mod worked;

ghost use Rattle.std.specs.Prelude.{◌≡◌, ◌≤◌, ℕ, true, false, List, [], ◌∷◌, length, map, Option, Some, None};
ghost use Rattle.mqtt_frames.specs.declared.packet.Packet.{Packet};
ghost use Rattle.sng_frames.specs.declared.fault.FrameFault.{FrameFault};
ghost use Rattle.sng_frames.specs.declared.frame.SnFrame.{SnFrame};
ghost use Rattle.sng_frames.specs.declared.frame.SnFrame.TheVariants as frame;
ghost use Rattle.sng_frames.specs.declared.messages.connect.Connect.{Connect};
ghost use Rattle.sng_frames.specs.declared.messages.publish.Publish.{Publish};
ghost use Rattle.sng_frames.specs.declared.messages.register.Register.{Register};
ghost use Rattle.sng_frames.specs.declared.messages.acks.TopicAck.{TopicAck};
ghost use Rattle.sng_frames.specs.declared.messages.subscribe.TopicRequest.{TopicRequest};
ghost use Rattle.sng_grants.specs.declared.policy.Policy.{Policy};
ghost use Rattle.sng_book.specs.declared.address.Address.{Address};
ghost use Rattle.sng_book.specs.declared.event.Event.TheVariants.{Broker, Down, Replace};
ghost use Rattle.sng_book.specs.declared.outcome.Outcome.TheVariants.{Allowed};
ghost use Rattle.sng_book.specs.declared.row.Row.{Row};
ghost use Rattle.sng_history.specs.Good.{Each};
ghost use Rattle.sng_history.specs.Books.{IsBook, LawfulBook};
ghost use Rattle.sng_history.specs.Lawful.{Lawful};
ghost use Rattle.sng_laws.specs.LawsAnswers.{Brought, Broken, connect_answer, source_answer, answer_to};
ghost use Rattle.sng_laws.specs.LawsAnswers.{no_session, ping_answer};
ghost use Rattle.sng_laws.specs.LawsAnswers.{leave_answer, sleep_answer, broken_stranger, broken_answer};
ghost use Rattle.sng_laws.specs.LawsHanding.{SettledInOrder, HandedOnce, FrontAnnounced, NothingIdles};
ghost use Rattle.sng_laws.specs.LawsHanding.{NoneKept};
ghost use Rattle.sng_laws.specs.LawsHanding.{EachHandJudged};
ghost use Rattle.sng_laws.specs.LawsHanding.{regack_answer};
ghost use Rattle.sng_laws.specs.LawsHanding.{puback_answer};
ghost use Rattle.sng_laws.specs.LawsTurns.{EachInTurn};
ghost use Rattle.sng_laws.specs.LawsLink.{LeavesInOrder, EachDeparts, EachTimely};
ghost use Rattle.sng_laws.specs.LawsReached.{EachAnnounced};
ghost use Rattle.sng_laws.specs.LawsLink.{EachUpstream};
ghost use Rattle.sng_laws.specs.LawsLink.{is_upstream, OnlyExits};
ghost use Rattle.sng_laws.specs.LawsFlight.{EachReturns, IdsApart, EachPacket};
ghost use Rattle.sng_laws.specs.LawsNames.{EachTells};
ghost use Rattle.sng_laws.specs.LawsRules.{judged};
ghost use Rattle.sng_laws.specs.LawsState.{ClientShown, OpenShown, RestShown, NoneTwice, OneMore};
ghost use Rattle.sng_laws.specs.LawsAsks.{register_stranger, register_answer, is_of_session};
ghost use Rattle.sng_laws.specs.LawsAsks.{publish_stranger, publish_answer, release_answer};
ghost use Rattle.sng_laws.specs.LawsAsks.{register_rules, told_as, packet_answer};
ghost use Rattle.sng_laws.specs.LawsSubscriptions.{subscribe_stranger, subscribe_answer};
ghost use Rattle.sng_laws.specs.LawsSubscriptions.{subscribe_rules, id_granted};
ghost use Rattle.sng_laws.specs.LawsSubscriptions.{SubscribesExactly};
ghost use Rattle.sng_laws.specs.LawsSubscriptions.{unsubscribe_stranger, unsubscribe_answer};
ghost use Rattle.sng_laws.specs.LawsSubscriptions.{replace_answer};
ghost use Rattle.sng_laws.specs.LawsUnsupported.{is_unsupported, unsupported_stranger, unsupported_answer};
ghost use Rattle.sng_history.specs.State.{State, opening, state_of};
ghost use Rattle.sng_laws.specs.Views.{policy_in_force, clock_at, is_up};
ghost use Rattle.sng_laws.specs.ViewsClients.{phase_of, is_admitted, is_among, accepted, those_at};
ghost use Rattle.sng_laws.specs.ViewsClients.{names_told, id_told, tells_id};
ghost use Rattle.sng_laws.specs.ViewsLink.{waiting};
ghost use Rattle.sng_laws.specs.ViewsMessages.{is_without_session};

/// The state that a lawful book leads to is what a reader sees who looks back through its rows: `policy` is the
/// policy in force, which is what the clock has left of the policy of the last replacement, `clock` the
/// greatest tick, and `up` whether the last word on the broker's connection is an Up. Of plain rows: what was
/// asked for, is owed or is to be told to the broker and has not left, the publishes in flight, the packet id
/// that was given last, the filters that stand for anybody, the clients in the order in which each was accepted
/// first, and of each client its state, where it is, the Duration that it stated and when it was heard last,
/// the filters that stand for it, its will, which is the last topic that was allowed since the will was deleted
/// last, with the last message, and how far the dialogue about it has come; and its topic ids: the k-th name
/// that it was told since its last accepted CONNECT has id k. `opened`: so it is with its open MsgIds, those of
/// its publishes at QoS 2 that were allowed since each was closed last. `strangers`: a client that was never
/// accepted has no state, so the rows show no other client.
pub fn state_is_shown()
    ensures policy { (h : List Row) → (s : State) → IsBook opening h s → s.policy ≡ policy_in_force h }
    ensures clock { (h : List Row) → (s : State) → IsBook opening h s → s.clock ≡ clock_at h }
    ensures up { (h : List Row) → (s : State) → IsBook opening h s → s.up ≡ is_up h }
    ensures waits { (h : List Row) → Lawful opening h → (state_of opening h).link.waiting ≡ waiting h }
    ensures rest { (h : List Row) → Lawful opening h → RestShown h (state_of opening h).link }
    ensures order { (h : List Row) → Lawful opening h
        → map (λ x. x.id) (state_of opening h).clients ≡ accepted h }
    ensures clients { (h : List Row) → Lawful opening h → Each (ClientShown h) (state_of opening h).clients }
    ensures opened { (h : List Row) → Lawful opening h → Each (OpenShown h) (state_of opening h).clients }
    ensures strangers { (h : List Row) → Lawful opening h → (id : List ℕ)
        → is_among id (accepted h) ≡ false → phase_of id h ≡ None }
{}

/// What leaves for the broker, in every lawful history. `in_order`: the publishes that left are a beginning
/// of those that were asked for and allowed, in order, and those that wait are the rest. `judged`: at each
/// take while up the publishes that wait leave, one note for each and in order, each judged by the policy in
/// force at that row for its own origin and name; one that is allowed is followed at once by its own packet,
/// with its own name, payload and Retain, and a packet id just at QoS 1; at no other row such a note stands.
/// `announced`: no PUBLISH goes to the broker but at once behind a note that lets it go. `timely`: no packet
/// goes to it but at a take while up, or as a connection begins. `packets`: at a take while up the packets
/// are those behind the notes, a PUBACK for each acknowledgement that waits, a PINGREQ for each that waits, a
/// SUBSCRIBE where its filter stands for somebody, and an UNSUBSCRIBE where its filter stands for nobody, in
/// the order in which all of them waited; as a connection begins they are those behind the notes and a
/// SUBSCRIBE for each filter that stands for anybody, in the order in which each stood first. A publish at
/// QoS 1 that leaves, a SUBSCRIBE and an UNSUBSCRIBE have each the next packet id: it counts on from the last
/// that was given, past those of publishes in flight and of open SUBSCRIBEs. `upstream`: with an event of
/// that connection alone nothing is sent to a client.
pub fn publishes_leave_judged()
    ensures in_order { (h : List Row) → Lawful opening h → LeavesInOrder h }
    ensures judged { (h : List Row) → Lawful opening h → EachDeparts h }
    ensures announced { (h : List Row) → Lawful opening h → EachAnnounced h }
    ensures timely { (h : List Row) → Lawful opening h → EachTimely h }
    ensures packets { (h : List Row) → Lawful opening h → EachPacket h }
    ensures upstream { (h : List Row) → Lawful opening h → EachUpstream h }
{}

/// What was sent to the broker at QoS 1 and is not acknowledged, in every lawful history. `judged`: as a
/// connection begins each publish in flight is judged again, one note for each and in order, by the policy in
/// force at that row for its own origin and name; one that is allowed is followed at once by its own packet,
/// as a new one under its own packet id; at no other row such a note stands. `ids`: the packet ids of those
/// in flight are from 1 to 65535, and no two are equal, so an id that is given is that of no publish in
/// flight.
pub fn publishes_return_judged()
    ensures judged { (h : List Row) → Lawful opening h → EachReturns h }
    ensures ids { (h : List Row) → Lawful opening h → IdsApart h }
{}

/// What reaches clients with the connection to the broker, in every lawful history: nothing. `downs`: as a
/// connection ends nothing is let out. `exits`: as
/// one begins, as one ends and at a take nothing is sent to a client, and each note is of a publish that
/// leaves or is sent again: nothing is handed over or announced to a client, and nobody leaves or loses a
/// subscription.
pub fn connection_reaches_no_client()
    ensures downs { (h : List Row) → (row : Row) → Lawful opening (row ∷ h) → row.event ≡ Down
        → row.outs ≡ [] }
    ensures exits { (h : List Row) → (row : Row) → Lawful opening (row ∷ h)
        → is_upstream row.event ≡ true → OnlyExits row.outs }
{}

/// In every lawful history at most one client is at an address.
pub fn one_client_at_an_address()
    ensures { (h : List Row) → Lawful opening h → (from : Address) → length (those_at from h) ≤ 1 }
{}

/// In every lawful history a row whose datagram holds a CONNECT begins with its note, with the first rule
/// that forbids it, in this order: a ProtocolId other than 1 is not supported; a client that the policy in
/// force does not list has no scope; and a client that was never accepted finds its place full where as many
/// were as the limit of that policy lets in. One that is denied is answered by the rule's code. As one is
/// accepted, the client is dismissed where it was, if that is elsewhere, another client at the address leaves,
/// of each filter that a clean one leaves with nobody it is noted where there is no place to tell the broker,
/// what waits for the client is gone if it is clean, CONNACK answers, and else what waits is handed over; one
/// with Will is answered by WILLTOPICREQ, and what waits is kept. Nothing else is let out.
pub fn connects_are_judged()
    ensures { (h : List Row) → (row : Row) → (from : Address) → (connect : Connect) → Lawful opening (row ∷ h)
        → Brought row from (frame.Connect connect) → row.outs ≡ connect_answer h from connect }
{}

/// In every lawful history a row whose datagram holds a PUBLISH without a session has one note, with the
/// first rule that forbids it, in this order: a source that the policy in force does not list; a topic id
/// whose type needs a session; a short id that is no name; a predefined id without a name; no pair with `pub`
/// whose filter matches; a connection that is down; and as many items that wait as its limit allows. Nothing
/// else is let out.
pub fn device_publishes_are_judged()
    ensures { (h : List Row) → (row : Row) → (from : Address) → (p : Publish) → Lawful opening (row ∷ h)
        → Brought row from (frame.Publish p) → is_without_session p.flags.qos ≡ true
        → row.outs ≡ source_answer h from p }
{}

/// In every lawful history an ask of a client is noted with the first rule that forbids it, and answered.
/// From an address at which no client is it has no session, and is answered by DISCONNECT. `registers`: the
/// rules for a REGISTER are, in this order: a client that is not active is out of turn; one that the policy
/// in force does not list has no scope; a text that is no topic name; no pair with `pub` whose filter
/// matches; and a name without an id where `MAX_TOPIC_IDS` names were told. REGACK answers, with the id of
/// the name where it is allowed: its place among the names told, or the next. `publishes`: the rules for a
/// PUBLISH of QoS 0, 1 or 2 are the first two of these; a topic id of the reserved type; a short id that is no
/// name; a predefined id without a name; an id that was not told; no pair with `pub` whose filter matches; a
/// connection that is down; at QoS 2, `MAX_OPEN_IDS` MsgIds of the client that are open; at QoS 1 and 2,
/// as many publishes of QoS 1 that wait or are in flight, and then as many items that wait, as the limits of
/// the policy in force allow.
/// PUBACK answers one that is denied, and one of QoS 1 that is allowed, and PUBREC one of QoS 2. But a repeat,
/// one of QoS 2 of an active client whose MsgId is open, PUBREC answers alone, without a note (`once` says
/// more).
pub fn asks_are_judged()
    ensures registers { (h : List Row) → (row : Row) → (from : Address) → (r : Register)
        → Lawful opening (row ∷ h)
        → Brought row from (frame.Register r)
        → row.outs ≡ answer_to (register_stranger from) (register_answer h from r) (those_at from h) }
    ensures publishes { (h : List Row) → (row : Row) → (from : Address) → (p : Publish)
        → Lawful opening (row ∷ h)
        → Brought row from (frame.Publish p) → is_of_session p.flags.qos ≡ true
        → row.outs ≡ answer_to (publish_stranger from) (publish_answer h from p) (those_at from h) }
{}

/// Subscriptions, in every lawful history. `subscribes`: a SUBSCRIBE of a client is noted with the first rule
/// that forbids it, in this order: a client that is not active is out of turn; one that the policy in force
/// does not list has no scope; a topic id of the reserved type; a text, or a name of a predefined or a short
/// id, that is no topic filter; a short id that is no name; a predefined id without a name; a filter that is
/// not covered, with a gap; a connection that is down; a text that is a name of other than two octets without
/// an id where `MAX_TOPIC_IDS` names were told; a filter that does not stand for the client where
/// `MAX_SUBSCRIPTIONS` do; and as many items that wait as the limit allows. SUBACK answers, with the QoS that
/// is granted and the topic id. `covered`: where the scope of the client holds filters, a SUBSCRIBE that is well
/// formed is denied as not covered where its filter matches a name that may not be received, and the gap is
/// such a name; else it is allowed where there is room. `unsubscribes`: an UNSUBSCRIBE needs no grant;
/// UNSUBACK answers. `replaces`: as the policy is replaced, of each client in the order of first acceptance
/// each filter that the new policy does not allow ends, in the order of first standing, noted with the rule
/// that forbids it. Behind an end that leaves a filter with nobody it is noted where there is no place to
/// tell the broker. Nothing else is let out.
pub fn subscriptions_are_judged()
    ensures subscribes { (h : List Row) → (row : Row) → (from : Address) → (r : TopicRequest)
        → Lawful opening (row ∷ h)
        → Brought row from (frame.Subscribe r)
        → row.outs ≡ answer_to (subscribe_stranger from) (subscribe_answer h from r) (those_at from h) }
    ensures covered { (h : List Row) → (id : List ℕ) → (r : TopicRequest) → SubscribesExactly h id r }
    ensures unsubscribes { (h : List Row) → (row : Row) → (from : Address) → (r : TopicRequest)
        → Lawful opening (row ∷ h)
        → Brought row from (frame.Unsubscribe r)
        → row.outs ≡ answer_to (unsubscribe_stranger from) (unsubscribe_answer h from r) (those_at from h) }
    ensures replaces { (h : List Row) → (row : Row) → (policy : Policy) → Lawful opening (row ∷ h)
        → row.event ≡ Replace policy
        → row.outs ≡ replace_answer h policy }
{}

/// The topic ids of a client, in every lawful history. `told`: the id that REGACK tells stands for the name
/// of the REGISTER from that row on. `subscribed`: so does the id that SUBACK tells where the SUBSCRIBE is
/// allowed and its text is a topic name of other than two octets. `announced`: at once behind each note that
/// announces a name its REGISTER goes out, and so does the id in it. `kept`: an id keeps its name until the
/// client connects anew, since a row that does not accept the client leaves the names that it was told where
/// they stood, and tells it at most one more, behind them. `once`: no name has two ids.
pub fn ids_keep_their_names()
    ensures told { (h : List Row) → (row : Row) → (from : Address) → (r : Register) → (id : List ℕ)
        → Lawful opening (row ∷ h)
        → Brought row from (frame.Register r) → those_at from h ≡ id ∷ []
        → judged (register_rules h id r.name) ≡ Allowed
        → told_as (id_told r.name (names_told id h)) (names_told id (row ∷ h)) ≡ Some r.name }
    ensures subscribed { (h : List Row) → (row : Row) → (from : Address) → (r : TopicRequest) → (id : List ℕ)
        → Lawful opening (row ∷ h)
        → Brought row from (frame.Subscribe r) → those_at from h ≡ id ∷ []
        → judged (subscribe_rules h id r) ≡ Allowed → tells_id r.flags.id_type r.topic ≡ true
        → told_as (id_granted (names_told id h) r.flags.id_type r.topic) (names_told id (row ∷ h))
        ≡ Some r.topic }
    ensures announced { (h : List Row) → Lawful opening h → EachTells h }
    ensures once { (h : List Row) → (id : List ℕ) → NoneTwice (names_told id h) }
    ensures kept { (h : List Row) → (row : Row) → (id : List ℕ) → Lawful opening (row ∷ h)
        → is_among id (accepted h) ≡ true
        → is_admitted id row.outs ≡ false → OneMore (names_told id h) (names_told id (row ∷ h)) }
{}

/// What waits of messages of the broker for a client, in every lawful history. `in_order`: the k-th of them
/// that is settled is the k-th that was due, by its name, and none is settled before it was due; one is due
/// where its name is one, the client awaits messages and a filter that stands for it matches, once however
/// many match, and not where it was turned away: too long, or the queue full. What was due and is not settled
/// waits. `once`: a client is handed no more messages than the broker sent. `front`: while an announcement is
/// open, the oldest that waits has the announced name. `idles`: right behind each row a client that takes
/// messages has nothing waiting, or something is open with it. `away`: nothing waits for a client without a
/// session.
pub fn messages_are_settled_in_order()
    ensures in_order { (h : List Row) → Lawful opening h → (id : List ℕ) → SettledInOrder h id }
    ensures once { (h : List Row) → Lawful opening h → (id : List ℕ) → HandedOnce h id }
    ensures front { (h : List Row) → Lawful opening h → (id : List ℕ) → FrontAnnounced h id }
    ensures idles { (h : List Row) → Lawful opening h → (id : List ℕ) → NothingIdles h id }
    ensures away { (h : List Row) → Lawful opening h → (id : List ℕ) → NoneKept h id }
{}

/// How messages of the broker come to a client, in every lawful history. `judged`, of every lawful book: a
/// message is handed over, or an id of its name announced, only where the policy in force at that row lets
/// the client receive the name by a pair with `sub` that matches it; one is denied for want of a scope or of
/// such a pair just by that policy, for want of an id only where that policy allows it, and else only by the
/// client, as too long, for a full queue, or as it is gone; what is open is sent again, or not, just by that
/// policy. `turns`: a message is handed over, denied by the policy or for want of an id, or its name
/// announced, only where at that place in the row the client takes messages and nothing is open with it, but
/// for an announced message that is judged again at a tick and denied; one is refused by the client only as
/// its REGACK with that code comes while the name is announced, too long or turned away only as a packet of
/// the broker comes, and gone only where nothing is open any more: so before its answer an announced message
/// is denied at a tick alone. A message is handed over only where the client knows its name then, and an id
/// is announced only where it does not; and only what is open with a client that takes messages is judged
/// again. `regacks`, `pubacks`: a REGACK has its turn where the client takes messages and its TopicId and
/// MsgId are those of the announcement that is open, a PUBACK where its MsgId is that of what is open; else
/// they are out of turn. A REGACK with another code than 0 refuses the front. Then all leaves that may, the
/// oldest first, each judged, with its own payload, QoS and Retain, until something is open again; an awake
/// client with whom nothing is then is sent PINGRESP.
pub fn messages_are_handed_over()
    ensures judged { (h : List Row) → LawfulBook opening h → EachHandJudged h }
    ensures turns { (h : List Row) → Lawful opening h → (id : List ℕ) → EachInTurn id h }
    ensures regacks { (h : List Row) → (row : Row) → (from : Address) → (r : TopicAck)
        → Lawful opening (row ∷ h)
        → Brought row from (frame.RegisterAck r)
        → row.outs ≡ answer_to (no_session from) (regack_answer h from r) (those_at from h) }
    ensures pubacks { (h : List Row) → (row : Row) → (from : Address) → (r : TopicAck)
        → Lawful opening (row ∷ h)
        → Brought row from (frame.PublishAck r)
        → row.outs ≡ answer_to (no_session from) (puback_answer h from r) (those_at from h) }
{}

/// In every lawful history any other datagram is answered to the client at its address, or else to nobody's.
/// `pings`: a PINGREQ that names another client has no session and is answered by DISCONNECT; of an active
/// client PINGRESP answers it without a note; one that names its client wakes it where it sleeps: what waited
/// is handed over, the oldest first, and PINGRESP says that nothing is left; an awake client goes on; else it
/// is out of turn. `releases`: a PUBREL of an active client is answered by PUBCOMP, whether its MsgId is open or
/// not, without a note; else it is out of turn. `sleeps`: by DISCONNECT with Duration a client falls asleep, which DISCONNECT answers;
/// while a dialogue is open that is out of turn. `leaves`: by DISCONNECT without Duration the client leaves,
/// DISCONNECT answers, and what waits for it is gone. A PINGREQ, a PUBREL and a DISCONNECT from an address at
/// which no client is have no session, and are answered by DISCONNECT. `unsupported`: other messages are not
/// supported, and are noted alone. `broken`: what is no
/// message is noted alone. `packets`: of a packet of the broker a message comes to each client that it
/// concerns, in the order of first acceptance; one under a text that is no topic name is noted, and an
/// acknowledgement that is owed while no more items may wait; a SUBACK that refuses ends the filter
/// whose open SUBSCRIBE has its packet id, for each client for whom it stands, in the order of first
/// acceptance; what else acknowledges or answers the gateway lets nothing out; and any other is not
/// supported.
pub fn messages_are_answered()
    ensures pings { (h : List Row) → (row : Row) → (from : Address) → (named : Option (List ℕ))
        → Lawful opening (row ∷ h)
        → Brought row from (frame.PingRequest named)
        → row.outs ≡ answer_to (no_session from) (ping_answer h from named) (those_at from h) }
    ensures releases { (h : List Row) → (row : Row) → (from : Address) → (number : ℕ)
        → Lawful opening (row ∷ h)
        → Brought row from (frame.PublishRelease number)
        → row.outs ≡ answer_to (no_session from) (release_answer h from number) (those_at from h) }
    ensures leaves { (h : List Row) → (row : Row) → (from : Address) → Lawful opening (row ∷ h)
        → Brought row from (frame.Disconnect None)
        → row.outs ≡ answer_to (no_session from) (leave_answer h from) (those_at from h) }
    ensures sleeps { (h : List Row) → (row : Row) → (from : Address) → (duration : ℕ)
        → Lawful opening (row ∷ h)
        → Brought row from (frame.Disconnect (Some duration))
        → row.outs ≡ answer_to (no_session from) (sleep_answer h from) (those_at from h) }
    ensures unsupported { (h : List Row) → (row : Row) → (from : Address) → (message : SnFrame)
        → Lawful opening (row ∷ h)
        → Brought row from message → is_unsupported message ≡ true
        → row.outs ≡ answer_to (unsupported_stranger from) unsupported_answer (those_at from h) }
    ensures broken { (h : List Row) → (row : Row) → (from : Address) → (broke : FrameFault)
        → Lawful opening (row ∷ h)
        → Broken row from broke
        → row.outs ≡ answer_to (broken_stranger from broke) (broken_answer broke) (those_at from h) }
    ensures packets { (h : List Row) → (row : Row) → (packet : Packet) → Lawful opening (row ∷ h)
        → row.event ≡ Broker packet
        → row.outs ≡ packet_answer h packet }
{}
