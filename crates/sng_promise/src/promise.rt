//! The promise of the gateway (RFC 9431, 2.3; RFC 9237).
ghost use Rattle.std.specs.Prelude.{◌≡◌, ℕ, false, true, List, [], ◌∷◌, Some};
ghost use Rattle.sng_frames.specs.Writing.{written};
ghost use Rattle.sng_frames.specs.declared.frame.SnFrame.{SnFrame};
ghost use Rattle.sng_book.specs.declared.address.Address.{Address};
ghost use Rattle.sng_book.specs.declared.decision.Decision.TheVariants as note;
ghost use Rattle.sng_book.specs.declared.decision.Who.TheVariants as who;
ghost use Rattle.sng_book.specs.declared.out.Out.TheVariants.{Send};
ghost use Rattle.sng_book.specs.declared.outcome.Denial.TheVariants.{Grant, Room};
ghost use Rattle.sng_book.specs.declared.outcome.GrantDenial.TheVariants.{MissingPub};
ghost use Rattle.sng_book.specs.declared.outcome.RoomDenial.TheVariants.{UpstreamDown};
ghost use Rattle.sng_book.specs.declared.outcome.Outcome.TheVariants.{Allowed, Denied};
ghost use Rattle.sng_book.specs.declared.row.Row.{Row};
ghost use Rattle.sng_history.specs.Books.{LawfulBook};
ghost use Rattle.sng_laws.specs.LawsReached.{EachAnnounced};
ghost use Rattle.sng_laws.specs.LawsPromise.{EachStands, Stands};
ghost use Rattle.sng_laws.specs.LawsReached.{EachReaches, Reaches, carries_topic, is_topical};
ghost use Rattle.sng_history.specs.State.{opening};

/// For every list of datagrams, sleeps, wake-ups, messages of the broker, ticks and replacements of the
/// policy, the gateway forwards, registers, subscribes, sets as will and hands over exactly what the policy
/// in force at that step allows, also out of buffers filled under an earlier policy; a subscription is
/// allowed exactly where every topic name that it matches is matched by a granted filter; and every denial
/// names its rule or the missing grant. `notes`: each note of each row of every lawful book stands under the
/// policy in force at that row, which is read at the clock of that row: a grant that has ended by then allows
/// nothing. A REGISTER, a PUBLISH, a will and a publish that leaves are allowed
/// where, and only where, that policy lists who asks and one of its pairs with `pub` matches the name; a
/// message that is handed over, announced or sent again where one with `sub` does; a subscription where
/// every name that its filter matches may be received, and else it is denied with such a name that may not,
/// given that the filters in the scope are valid ones. Aside from that an ask is denied by a rule of form,
/// turn or session, which it names; and what is allowed is not carried out where the note says that the
/// connection is down, a place is full, or a message too long. `reached`: no PUBLISH and no REGISTER goes to
/// a client but at once behind a note that lets it go. `announced`: no PUBLISH goes to the broker but so.
/// What else goes there is said by `publishes_leave_judged`, as `packets`.
pub fn the_policy_in_force_is_kept()
    ensures notes { (h : List Row) → LawfulBook opening h → EachStands h }
    ensures reached { (h : List Row) → LawfulBook opening h → EachReaches h }
    ensures announced { (h : List Row) → LawfulBook opening h → EachAnnounced h }
{}

/// The type octet of a datagram tells a PUBLISH and a REGISTER from every other message, whatever its Length:
/// so what is said above of a datagram that carries a topic is said of just these.
pub fn topics_are_told_by_type()
    ensures { (message : SnFrame) → carries_topic (written message) ≡ is_topical message }
{}

/// What the promise refuses as long as no policy was put in force, which lists nobody: that a publish
/// leaves, is allowed or sets a will; that a message is handed over, a filter subscribed to, or a client let
/// in; a denial by another rule (`rule`), or for want of the connection where the policy denies it (`room`).
/// And at any time a PUBLISH or a REGISTER to a client with no note before it (`unnoted`).
pub fn the_unlisted_are_refused()
    ensures leaves { (id : List ℕ) → (name : List ℕ)
        → Stands opening.policy (note.Forward (who.Client id) name Allowed) → ⊥ }
    ensures publishes { (id : List ℕ) → (name : List ℕ)
        → Stands opening.policy (note.Publish (who.Client id) (Some name) Allowed) → ⊥ }
    ensures sources { (ip : List ℕ) → (name : List ℕ)
        → Stands opening.policy (note.Publish (who.Source ip) (Some name) Allowed) → ⊥ }
    ensures wills { (id : List ℕ) → (topic : List ℕ)
        → Stands opening.policy (note.Will (who.Client id) (Some topic) Allowed) → ⊥ }
    ensures hands { (id : List ℕ) → (name : List ℕ) → Stands opening.policy (note.Hand id name Allowed) → ⊥ }
    ensures subscribes { (id : List ℕ) → (text : List ℕ)
        → Stands opening.policy (note.Subscribe (who.Client id) (Some text) Allowed) → ⊥ }
    ensures connects { (id : List ℕ) → Stands opening.policy (note.Connect id Allowed) → ⊥ }
    ensures rule { (id : List ℕ) → (name : List ℕ)
        → Stands opening.policy
        (note.Publish (who.Client id) (Some name) (Denied (Grant (MissingPub name)))) → ⊥ }
    ensures room { (id : List ℕ) → (name : List ℕ)
        → Stands opening.policy (note.Publish (who.Client id) (Some name) (Denied (Room UpstreamDown))) → ⊥ }
    ensures unnoted { (to : Address) → (message : SnFrame) → is_topical message ≡ true
        → Reaches false (Send to (written message) ∷ []) → ⊥ }
{}
