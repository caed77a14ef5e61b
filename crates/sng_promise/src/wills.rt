//! Wills, and clients that are lost (MQTT-SN 1.2, 5.4.4, 6.3, 6.4 and 6.13).
ghost use Rattle.std.specs.Prelude.{◌≡◌, ℕ, List, ◌∷◌};
ghost use Rattle.sng_book.specs.declared.address.Address.{Address};
ghost use Rattle.sng_book.specs.declared.event.Event.TheVariants.{Tick};
ghost use Rattle.sng_book.specs.declared.row.Row.{Row};
ghost use Rattle.sng_history.specs.Causes.{Statement};
ghost use Rattle.sng_history.specs.Lawful.{Lawful};
ghost use Rattle.sng_laws.specs.LawsAnswers.{Brought, answer_to};
ghost use Rattle.sng_laws.specs.LawsLost.{LostExactly, tick_answer};
ghost use Rattle.sng_laws.specs.LawsWills.{stated_as, will_stranger, will_answer};
ghost use Rattle.sng_history.specs.State.{opening};
ghost use Rattle.sng_laws.specs.ViewsClients.{those_at};

/// What a client states of its will, in every lawful history, is noted with the first rule that forbids it,
/// and answered. In the dialogue that a CONNECT with Will opens a WILLTOPIC has its turn first, and then a
/// WILLMSG; a WILLTOPICUPD has it where the client is active, and a WILLMSGUPD where it has a will besides;
/// else they are out of turn. A WILLTOPIC or WILLTOPICUPD without a topic deletes the will, and nothing has
/// to be granted for that. Else the rules are, in this order: a client that the policy in force does not list
/// has no scope; a topic that is no topic name; and no pair with `pub` whose filter matches the topic, which
/// for a WILLMSG is that of its dialogue and for a WILLMSGUPD that of the will. WILLMSGREQ answers a topic in
/// the dialogue, and CONNACK its end, behind which all is handed over that waited meanwhile. What is denied
/// in the dialogue by another rule than its turn ends it: CONNACK says so, the client leaves, and what waits
/// for it is gone. An update is answered by its own acknowledgement. From an address at which no client is it
/// has no session, and is answered by DISCONNECT.
pub fn wills_are_judged()
    ensures { (h : List Row) → (row : Row) → (from : Address) → (statement : Statement)
        → Lawful opening (row ∷ h)
        → Brought row from (stated_as statement)
        → row.outs ≡ answer_to (will_stranger from) (will_answer h from statement) (those_at from h) }
{}

/// Which clients are lost, in every lawful history. `exactly`: a client is lost at a row exactly where that
/// is a tick, and by the greatest clock so far either the client has a session and stated a Duration other
/// than 0, and since it was heard last `SILENCE_MS_PER_SECOND` or more passed for each second of it; or
/// something is open with it that was sent again `MAX_TRIES` times, and last `RETRY_MS` ago or more. `ticks`:
/// at a tick each of these is noted in the order of first acceptance, behind it what waited for it is gone,
/// and where its will finds no place, among the publishes at QoS 1 or in the outbox as the wills before it
/// left them, that is noted, too. What is open with any other, and was sent last `RETRY_MS` ago or more, is
/// judged by the policy in force: allowed, it is sent again, with the ids of its first sending and a PUBLISH
/// with DUP; denied, it is open no more, an announced message is settled so, and what may leave then leaves.
/// A PINGREQ to the broker that is due and finds no place is noted last, and nothing else is let out.
pub fn silent_clients_are_lost()
    ensures exactly { (h : List Row) → Lawful opening h → (id : List ℕ) → LostExactly id h }
    ensures ticks { (h : List Row) → (row : Row) → (clock : ℕ) → Lawful opening (row ∷ h)
        → row.event ≡ Tick clock
        → row.outs ≡ tick_answer h clock }
{}
