//! The laws of what goes out to the broker, row by row.
ghost use Rattle.std.specs.Prelude.{◌≡◌, List, ◌∷◌};
ghost use Rattle.sng_book.specs.declared.event.Event.TheVariants.{Up, Take};
ghost use Rattle.sng_book.specs.declared.row.Row.{Row};
ghost use Rattle.sng_history.specs.Lawful.{Lawful};
ghost use Rattle.sng_laws.specs.LawsOutgoing.{take_answer, up_answer};
ghost use Rattle.sng_history.specs.State.{opening};

/// All that a take lets out, and all that a connection lets out as it begins, in every lawful history.
/// `takes`: while up all that waits leaves, in order. A publish is noted with how the policy in force judges
/// its own origin and name, and one that is allowed is followed at once by its packet, with its own name,
/// payload and Retain; an acknowledgement goes out as PUBACK, and a PINGREQ as itself; a SUBSCRIBE goes out,
/// at QoS 1, just where its filter stands for somebody, and an UNSUBSCRIBE just where it stands for nobody. A
/// publish at QoS 1, a SUBSCRIBE and an UNSUBSCRIBE have each the next packet id. While down a take lets
/// nothing out. `begins`: each publish in flight, in the order of their sending, is noted with how the policy
/// in force judges it now, and one that is allowed is followed at once by its packet, as a new one under the
/// packet id that it has; then a SUBSCRIBE goes out for each filter that stands for anybody, in the order in
/// which each stood first, with the next packet ids. Nothing else is let out.
pub fn rows_are_exact()
    ensures takes { (h : List Row) → (row : Row) → Lawful opening (row ∷ h) → row.event ≡ Take
        → row.outs ≡ take_answer h }
    ensures begins { (h : List Row) → (row : Row) → Lawful opening (row ∷ h) → row.event ≡ Up
        → row.outs ≡ up_answer h }
{}
