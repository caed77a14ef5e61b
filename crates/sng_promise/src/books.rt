//! Books whose scopes may end (RFC 9200, 5.10.3). What the policy in force allows, what stands, and which
//! policy that is, is said of each lawful book in the words of its own rows. The laws of whole rows, of their
//! order and of their bytes are of the plain rows as which a book is read: a replacement by what is in force
//! of its policy at the clock, and a tick by which a scope ends as two rows, the ends before all else.
ghost use Rattle.std.specs.Prelude.{List};
ghost use Rattle.sng_book.specs.declared.row.Row.{Row};
ghost use Rattle.sng_history.specs.Books.{IsReadAs};
ghost use Rattle.sng_history.specs.Lawful.{Lawful};
ghost use Rattle.sng_history.specs.State.{opening};
ghost use Rattle.sng_laws.specs.LawsBooks.{IsShownBy};

/// Where a book is read as lawful plain rows, the policy of the last replacement in these is the policy in
/// force in the book: what its clock has left of the policy of its own last replacement. Their clock is the
/// greatest tick of the book, the connection is as its last Up or Down left it, and for each client the
/// filters stand that the book shows to stand. So wherever a law of plain rows cites the policy, it is read at
/// the clock of the book.
pub fn books_are_read_at_their_clock()
    ensures { (h : List Row) → (plain : List Row) → IsReadAs opening h plain → Lawful opening plain
        → IsShownBy h plain }
{}
