//! Histories of the gateway: what each event does to its state and lets out, which histories are lawful, and
//! that each step keeps a history lawful. The definitions stand in specs/; the code that runs here is the
//! judgement by the policy, which the crates above share. What a reader of the rows sees is in `sng_laws`,
//! and that every lawful history keeps those laws in `sng_promise`.
#![tactic(auto)]

pub mod laws;
pub mod limits;
pub mod verdicts;

ghost use Rattle.std.specs.Prelude.{◌≡◌, List, []};
ghost use Rattle.sng_book.specs.declared.event.Event.{Event};
ghost use Rattle.sng_book.specs.declared.out.Out.{Out};
ghost use Rattle.sng_history.specs.Books.{IsBook, KeepsBook, row_outs, row_next};
ghost use Rattle.sng_history.specs.Good.{Good};
ghost use Rattle.sng_history.specs.Lawful.{LawfulRow, Keeps};
ghost use Rattle.sng_history.specs.State.{State, opening};
ghost use Rattle.sng_history.specs.Steps.{outs_of, next_of};

pub use limits::{MAX_OPEN_SUBSCRIBES, PING_MS, RETRY_MS};
pub use verdicts::{coverage, exit, exit_by, receive, receive_by};

/// A step from a good state keeps a book lawful, and leads to the state after it, which is good again; the
/// opening state is good, and the empty book leads to it.
pub fn step_keeps_books()
    ensures kept { (s : State) → (e : Event) → Good s → KeepsBook s e (row_outs s e) (row_next s e) }
    ensures opening { IsBook opening [] opening }
    ensures good { (s : State) → (e : Event) → Good s → Good (row_next s e) }
{}

/// The same of plain rows: a step from a good state keeps a history lawful, and leads to the state after it,
/// which is good again; the opening state is good. `exactly`: where the state is good a row may come exactly if
/// its outs are those of the step.
pub fn step_is_lawful()
    ensures kept { (s : State) → (e : Event) → Good s → Keeps s e (outs_of s e) (next_of s e) }
    ensures opening { Good opening }
    ensures good { (s : State) → (e : Event) → Good s → Good (next_of s e) }
    ensures exactly { (s : State) → (e : Event) → (outs : List Out) → Good s
        → (LawfulRow s e outs → outs ≡ outs_of s e) × (outs ≡ outs_of s e → LawfulRow s e outs) }
{}
