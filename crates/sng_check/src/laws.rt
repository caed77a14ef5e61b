//! Laws of books, in the words of a reader of one. Each function does nothing: its contract is the law.
ghost use Rattle.std.specs.Prelude.{◌≡◌, ℕ, List, [], Some};
ghost use Rattle.sng_gateway.specs.Scripts.{IsOutcome};
ghost use Rattle.sng_script.specs.declared.status.Status.TheVariants.{Done, Unreadable};
ghost use Rattle.sng_check.specs.Books.{IsBook};
ghost use Rattle.sng_check.specs.Mismatches.{Departs};
ghost use Rattle.sng_check.specs.declared.mismatch.Mismatch.{Mismatch};

/// Every script has a book, and no other: there is one lawful history of its events, and one text of that.
pub fn a_script_has_one_book()
    ensures one { (script : List (List ℕ)) → (count : ℕ) × (text : List ℕ) × IsBook script count text }
    ensures no_other { (script : List (List ℕ)) → (count other : ℕ) → (text book : List ℕ)
        → IsBook script count text → IsBook script other book → (text ≡ book) × (count ≡ other) }
{}

/// A text that departs from the books of a script is none of them.
pub fn a_departure_is_no_book()
    ensures { (script : List (List ℕ)) → (text : List ℕ) → (m : Mismatch) → Departs script text m
        → (count : ℕ) → IsBook script count text → ⊥ }
{}

/// What `sng play` writes for a script, where it came to its end or to a line that it cannot read, is its
/// book.
pub fn what_is_played_is_the_book()
    ensures ended { (script : List (List ℕ)) → (text : List ℕ)
        → IsOutcome Done script (Some []) (Some text) → (count : ℕ) × IsBook script count text }
    ensures unreadable { (script : List (List ℕ)) → (text : List ℕ)
        → IsOutcome Unreadable script (Some []) (Some text) → (count : ℕ) × IsBook script count text }
{}
