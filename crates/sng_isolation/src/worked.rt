//! What the words of the laws say, by example.
ghost use Rattle.std.specs.Prelude.{◌≡◌, true, false, [], ◌∷◌};
ghost use Rattle.sng_book.specs.declared.event.Event.TheVariants.{Datagram, Replace};
ghost use Rattle.sng_book.specs.declared.outcome.Place.TheVariants.{Outbox, Exchanges};
ghost use Rattle.sng_book.specs.Traces.{trace_of};
ghost use Rattle.sng_history.specs.Causes.{cause_of};
ghost use Rattle.sng_isolation.specs.Examples.{s1, s2, home, away, connect_s1, connect_s2, comes, others_come};
ghost use Rattle.sng_isolation.specs.Examples.{lists_both, lists_first, first_alone, with_another, of_both, of_first, finds_full};
ghost use Rattle.sng_isolation.specs.Isolation.{is_stray, LookAlike};
ghost use Rattle.sng_isolation.specs.Own.{own_of};
ghost use Rattle.sng_isolation.specs.Room.{HasRoom};
ghost use Rattle.sng_isolation.specs.View.{seen};

/// `own`: a client's addresses are those from which a CONNECT names it, in either book. `unseen`, `seen`: it sees a
/// datagram from there and none from elsewhere, whoever sends it; `scope`: and of a policy its own scope, with its
/// end, and the topics. `trace`: it gets what is sent to its addresses and its notes, that its publishes leave among
/// them, but not that they are sent again. `stray`: a CONNECT of another from there is none that the law allows.
/// `alike`: where the policy lists another client beside it, and that one comes as well, all looks the same to it.
/// `full`: a client that finds a shared place full has no room; one that finds a place of its own full has, and so
/// has one beside whom another finds a place full.
pub fn words_say_this()
    ensures own { own_of s1 comes others_come ≡ home ∷ [] }
    ensures unseen { seen s1 (home ∷ []) (Datagram away connect_s2) ≡ [] }
    ensures seen { seen s1 (home ∷ []) (Datagram home connect_s2) ≡ Datagram home connect_s2 ∷ [] }
    ensures scope { seen s1 (home ∷ []) (Replace lists_both) ≡ Replace lists_first ∷ [] }
    ensures trace { trace_of s1 (home ∷ []) of_both ≡ of_first }
    ensures stray { is_stray s1 (home ∷ []) (cause_of (Datagram home connect_s2)) ≡ true }
    ensures straight { is_stray s1 (home ∷ []) (cause_of (Datagram away connect_s2)) ≡ false }
    ensures alike { LookAlike s1 first_alone with_another }
    ensures full { HasRoom s1 (finds_full s1 Outbox) → ⊥ }
    ensures own_full { HasRoom s1 (finds_full s1 Exchanges) }
    ensures other_full { HasRoom s1 (finds_full s2 Outbox) }
{}
