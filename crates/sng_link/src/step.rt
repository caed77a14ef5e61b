//! What the planning of what leaves took into use, so that it can be given back (MQTT 3.1.1, 2.3.1).
ghost use Rattle.std.specs.Prelude.{◌≡◌, reverse};
ghost use Rattle.sng_link.specs.Steps.{back_marks, back_wanted, reopened_at, forgiven_at, IsBack};
ghost use Rattle.sng_link.specs.Steps.{undone_marks, undone_wanted, CanUndo};

use sng_outbox::PacketIds;
use sng_text::TopicFilter;
use sng_wanted::Wanted;

/// What one item took into use as it was planned.
#[derive(Debug, Drop)]
pub struct Step {
    /// The packet id that it leaves under, where there is one.
    pub packet_id: Option<u16>,
    /// The packet id that was in use until then, where there was one.
    pub former: Option<u16>,
    /// Whether a SUBSCRIBE of its filter was owed until then.
    pub owed: bool,
    /// The filter of which a SUBSCRIBE is owed from then on, where one came to be.
    pub owes: Option<TopicFilter>,
}

/// What was planned is given up, the last step first, and packet ids are counted on from this one. Takes no
/// memory.
pub fn undo(ids: &mut PacketIds, wanted: &mut Wanted, mut log: Vec<Step>, last: u16)
    requires { CanUndo wanted.old.wanted (reverse log.items) }
    ensures marks { ids.new.marks ≡ undone_marks ids.old.marks (reverse log.items) }
    ensures last { ids.new.last ≡ last }
    ensures wanted { wanted.new
        ≡ record wanted.old { wanted = undone_wanted wanted.old.wanted (reverse log.items) } }
{
    while let Some(step) = log.pop() {
        give_back(ids, wanted, &step);
    }
    ids.count_from(last);
}

/// One step is taken back: the former packet id is in use again, and the other is free; what was owed is owed
/// again, and nothing that came to be by the step.
fn give_back(ids: &mut PacketIds, wanted: &mut Wanted, step: &Step)
    requires { IsBack wanted.old.wanted step.now.packet_id step.now.former }
    ensures ids { ids.new ≡ record ids.old { marks = back_marks ids.old.marks step.now } }
    ensures wanted { wanted.new
        ≡ record wanted.old { wanted = back_wanted wanted.old.wanted step.now } }
{
    if let Some(former) = step.former {
        ids.mark(former);
    }
    if let Some(packet_id) = step.packet_id {
        ids.free(packet_id);
    }
    reopen(wanted, step.packet_id, step.former, step.owed);
    forgive(wanted, &step.owes);
}

/// The former SUBSCRIBE is the open one again, or none, in place of the one with this packet id.
fn reopen(wanted: &mut Wanted, packet_id: Option<u16>, former: Option<u16>, owed: bool)
    requires { IsBack wanted.old.wanted packet_id former }
    ensures { wanted.new
        ≡ record wanted.old { wanted = reopened_at wanted.old.wanted packet_id former owed } }
{
    if let Some(packet_id) = packet_id {
        wanted.reopen(packet_id, former, owed);
    }
}

/// No SUBSCRIBE of the filter is owed any more, where there is one.
fn forgive(wanted: &mut Wanted, filter: &Option<TopicFilter>)
    ensures { wanted.new ≡ record wanted.old { wanted = forgiven_at wanted.old.wanted filter.now } }
{
    if let Some(filter) = filter {
        wanted.forgive(filter);
    }
}
