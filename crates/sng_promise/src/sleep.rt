//! Clients that sleep (MQTT-SN 1.2, 6.14).
ghost use Rattle.std.specs.Prelude.{◌≡◌, true, ℕ, List, ◌∷◌};
ghost use Rattle.sng_book.specs.declared.address.Address.{Address};
ghost use Rattle.sng_book.specs.declared.row.Row.{Row};
ghost use Rattle.sng_history.specs.Lawful.{Lawful};
ghost use Rattle.sng_laws.specs.LawsSleep.{LeftAlone, PongedExactly, AwakeIsBusy};
ghost use Rattle.sng_history.specs.State.{opening};
ghost use Rattle.sng_laws.specs.ViewsClients.{accepted, is_among};

/// Clients that sleep, in every lawful history. `left_alone`: while a client sleeps, nothing is sent to where
/// it is but with a datagram that comes from there, and with its own CONNECT from elsewhere. `ponged`: a
/// client that is awake behind the notes of a row is sent PINGRESP in that row exactly where nothing waits
/// for it and nothing is open with it then; so it sleeps again. `busy`: with a client that is awake behind a
/// row something is open.
pub fn sleepers_are_left_alone()
    ensures left_alone { (h : List Row) → (row : Row) → (id : List ℕ) → (place : Address)
        → Lawful opening (row ∷ h)
        → is_among id (accepted h) ≡ true → LeftAlone h row id place }
    ensures ponged { (h : List Row) → Lawful opening h → (id : List ℕ) → PongedExactly id h }
    ensures busy { (h : List Row) → Lawful opening h → (id : List ℕ) → AwakeIsBusy id h }
{}
