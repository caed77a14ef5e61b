//! Clients are apart: what a client gets does not tell what other clients send, but for what they can do to
//! the places that all share. What the words mean stands in specs/, over the histories of `sng_history`.
#![tactic(auto)]

pub mod worked;

ghost use Rattle.std.specs.Prelude.{List, ℕ};
ghost use Rattle.sng_book.specs.declared.row.Row.{Row};
ghost use Rattle.sng_isolation.specs.Isolation.{OneStep, TwoRuns};
ghost use Rattle.sng_isolation.specs.Room.{IsFree, EachHasRoom};

/// After every lawful book: a datagram that comes from where a client is not, and is no CONNECT of it, makes no
/// note of the client, sends nothing to where it is, and leaves all that is kept of it: its state, address,
/// Duration and when it was heard, its topic ids and the last MsgId, its will and the dialogue about it, its
/// filters, what waits for it and is open with it, and its open MsgIds.
pub fn one_step_leaves_clients_alone()
    ensures { OneStep }
{}

/// Two lawful books whose events look the same to a client have the same trace of it, whatever other clients
/// send, wherever they come from, and whatever the policies say of them: the datagrams that are sent to the
/// client's addresses, and its notes. The events are to bring no refusal of a subscription by the broker, and no
/// other client to one of the client's addresses; and the client is to find none of the places full that all
/// share. `free`: it finds none full in a book in which no note, of whomever, has one of the rules 21 to 23.
pub fn two_runs_agree()
    ensures agree { TwoRuns }
    ensures free { (h : List Row) → (id : List ℕ) → IsFree h → EachHasRoom id h }
{}
