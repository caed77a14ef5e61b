//! The laws of subscriptions: for whom a filter stands, and what the broker is told of it.
ghost use Rattle.std.specs.Prelude.{◌≡◌, ◌↔◌, ℕ, true, false, List, [], ◌∷◌};
ghost use Rattle.std.specs.List.{list_any};
ghost use Rattle.sng_book.specs.declared.event.Event.TheVariants.{Up, Take};
ghost use Rattle.sng_book.specs.declared.row.Row.{Row};
ghost use Rattle.sng_history.specs.Books.{LawfulBook};
ghost use Rattle.sng_history.specs.Lawful.{Lawful};
ghost use Rattle.sng_laws.specs.LawsStanding.{StandingIsFilter, StandingIsAllowed, StandingIsReceived};
ghost use Rattle.sng_laws.specs.LawsStanding.{EachOnce, StaysEndedBy, StaysEndedBeside, BeginsBySubscribe};
ghost use Rattle.sng_laws.specs.LawsUpstream.{AllFewClients, AllPlaced, EachIsOwed, IsSame, IsSameOrOwed};
ghost use Rattle.sng_laws.specs.LawsUpstream.{NoneOwed, StandsStill};
ghost use Rattle.sng_history.specs.State.{opening};
ghost use Rattle.sng_laws.specs.Views.{is_up};
ghost use Rattle.sng_laws.specs.ViewsClients.{is_among, accepted};
ghost use Rattle.sng_laws.specs.ViewsStanding.{standing_of, held_in, is_for};
ghost use Rattle.sng_laws.specs.ViewsWanted.{wanted};

/// In every lawful book each filter that stands for a client is a topic filter, and the policy in force, read
/// at the clock of the last row, allows it to the client: so a filter ends at the tick by which its grant
/// does. `received`: so each topic name that it matches may be received by the client, where the policy's
/// scope for it holds filters.
pub fn standing_filters_are_covered()
    ensures filters { (h : List Row) → LawfulBook opening h → StandingIsFilter h }
    ensures allowed { (h : List Row) → LawfulBook opening h → StandingIsAllowed h }
    ensures received { (h : List Row) → LawfulBook opening h → StandingIsReceived h }
{}

/// The filters that go upstream are in every lawful history just those that stand for somebody, each once.
/// `strangers`: nothing stands for a client that was never accepted, so the rows show no other subscription.
pub fn wanted_filters_stand()
    ensures just { (h : List Row) → Lawful opening h → (text : List ℕ)
        → list_any (is_for text) (wanted h) ≡ held_in h text }
    ensures once { (h : List Row) → Lawful opening h → EachOnce (wanted h) }
    ensures strangers { (h : List Row) → Lawful opening h → (id : List ℕ)
        → is_among id (accepted h) ≡ false → standing_of id h ≡ [] }
{}

/// A filter that does not stand for a client does not begin to stand in a row without a note that allows that
/// client a SUBSCRIBE by it. `beside`: nor does it in a row that is no SUBSCRIBE, so a replacement that would
/// allow again what an earlier one ended revives nothing. `own`: in every lawful history a filter begins to
/// stand for a client just by a SUBSCRIBE that came from where the client is.
pub fn ended_stays_ended()
    ensures noted { (h : List Row) → (row : Row) → StaysEndedBy h row }
    ensures beside { (h : List Row) → (row : Row) → StaysEndedBeside h row }
    ensures own { (h : List Row) → (row : Row) → Lawful opening (row ∷ h) → BeginsBySubscribe h row }
{}

/// What the broker keeps of subscriptions, in every lawful history: the filters whose last word to it since
/// the connection began was a SUBSCRIBE, and that no SUBACK refused since, with the packet id of their open
/// SUBSCRIBE. `waits`: where no row notes that no more could wait, and while up, of each filter that stands
/// for somebody it keeps a subscription, or a SUBSCRIBE waits or is owed, and of each that stands for nobody it
/// keeps none, or an UNSUBSCRIBE waits. So right behind a take while up it keeps one just of the filters that
/// stand for somebody, or a SUBSCRIBE of them is owed (`takes`); right behind the begin of a connection that is
/// so in any case (`begins`); and it stays so while up until a filter begins or ceases to stand (`stays`).
/// `none_owed`: no SUBSCRIBE is ever owed where each policy lets in no more clients than have room for an open
/// SUBSCRIBE of each of their filters, as with the limits of a policy that sets none; so then all of it is said of
/// what the broker keeps alone (`few`).
pub fn subscriptions_reach_the_broker()
    ensures waits { (h : List Row) → Lawful opening h → AllPlaced h → is_up h ≡ true
        → EachIsOwed h }
    ensures begins { (h : List Row) → (row : Row) → Lawful opening (row ∷ h) → row.event ≡ Up
        → IsSameOrOwed (row ∷ h) }
    ensures takes { (h : List Row) → (row : Row) → Lawful opening (row ∷ h) → AllPlaced h → is_up h ≡ true
        → row.event ≡ Take → IsSameOrOwed (row ∷ h) }
    ensures stays { (h : List Row) → (row : Row) → Lawful opening (row ∷ h) → is_up (row ∷ h) ≡ true
        → IsSameOrOwed h → StandsStill h row → IsSameOrOwed (row ∷ h) }
    ensures none_owed { (h : List Row) → Lawful opening h → AllFewClients h → NoneOwed h }
    ensures few { (h : List Row) → NoneOwed h → (IsSameOrOwed h ↔ IsSame h) }
{}
