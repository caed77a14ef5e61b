//! Each publish of a client at QoS 2 counts once, however often it is sent (MQTT 3.1.1, 4.3.3; MQTT-SN 1.2, 6.6).
ghost use Rattle.std.specs.Prelude.{◌≡◌, ◌≤◌, ℕ, true, false, List, [], ◌∷◌, length};
ghost use Rattle.sng_frames.specs.declared.frame.SnFrame.TheVariants as frame;
ghost use Rattle.sng_frames.specs.declared.messages.publish.Publish.{Publish};
ghost use Rattle.sng_states.specs.declared.limits.TheConstants.{MAX_OPEN_IDS};
ghost use Rattle.sng_book.specs.declared.address.Address.{Address};
ghost use Rattle.sng_book.specs.declared.row.Row.{Row};
ghost use Rattle.sng_history.specs.Lawful.{Lawful};
ghost use Rattle.sng_history.specs.State.{opening};
ghost use Rattle.sng_laws.specs.LawsAnswers.{Brought, is_active};
ghost use Rattle.sng_laws.specs.LawsAsks.{is_repeat, pubcomp_to, session_rules};
ghost use Rattle.sng_laws.specs.LawsOnce.{EachOnce, IsCounted, EachCompletes};
ghost use Rattle.sng_laws.specs.LawsRules.{judged};
ghost use Rattle.sng_laws.specs.ViewsClients.{phase_of, those_at};
ghost use Rattle.sng_laws.specs.ViewsMessages.{is_exactly_once};
ghost use Rattle.sng_laws.specs.ViewsOpenIds.{is_open, open_of};

/// A MsgId of a client is closed by its PUBREL in turn, and by an accepted CONNECT with CleanSession; between
/// two of these, in every lawful history: `once`, of the publishes at QoS 2 with one MsgId one is allowed at
/// most. `counted`: each of them that comes before is denied and asks for nothing, or is that one: it is noted
/// allowed, waits for the broker at QoS 1 and opens the MsgId. Each in turn behind it is a repeat, which PUBREC
/// answers alone: it has no note, and asks for nothing. `few`: no more MsgIds are open than may be. `released`: a
/// PUBREL in turn is answered by PUBCOMP alone, and its MsgId is open no more; `completed`: in no other row
/// PUBCOMP goes out.
pub fn publishes_count_once()
    ensures once { (h : List Row) → Lawful opening h → (id : List ℕ) → EachOnce (open_of id h) }
    ensures few { (h : List Row) → Lawful opening h → (id : List ℕ) → length (open_of id h) ≤ MAX_OPEN_IDS }
    ensures counted { (h : List Row) → (row : Row) → (from : Address) → (p : Publish) → (id : List ℕ)
        → Lawful opening (row ∷ h)
        → Brought row from (frame.Publish p) → is_exactly_once p.flags.qos ≡ true
        → those_at from h ≡ id ∷ []
        → IsCounted h row from id p (is_repeat h id p) (judged (session_rules h id p)) }
    ensures released { (h : List Row) → (row : Row) → (from : Address) → (number : ℕ) → (id : List ℕ)
        → Lawful opening (row ∷ h)
        → Brought row from (frame.PublishRelease number) → those_at from h ≡ id ∷ []
        → is_active (phase_of id h) ≡ true
        → (row.outs ≡ pubcomp_to from number ∷ []) × (is_open number (open_of id (row ∷ h)) ≡ false) }
    ensures completed { (h : List Row) → Lawful opening h → EachCompletes h }
{}
