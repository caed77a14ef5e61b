//! The families of a page that are counted of rows.
ghost use Rattle.std.specs.Prelude.{◌≡◌, ◌++◌, OnOk};
ghost use Rattle.sng_book.specs.Printing.{kind_text};
ghost use Rattle.sng_metrics.specs.Counts.{came_sample, change_families, decision_sample, decision_samples};
ghost use Rattle.sng_metrics.specs.Counts.{decisions_family, is_allowed, is_done, kind_samples, may_come};
ghost use Rattle.sng_metrics.specs.Counts.{outcome_word, row_sample, row_samples, rows_family, rule_word};
ghost use Rattle.sng_metrics.specs.Counts.{samples_of_kind, traffic_families};
ghost use Rattle.sng_metrics.specs.Metrics.{name_of};
ghost use Rattle.sng_metrics.specs.Pages.{family_text, page_text, sample_text, samples_text};

use crate::gauges::push_count;
use crate::metric::Metric;
use crate::sample::{Label, Value, push_plain, push_sample, push_title};
use sng_book::EventKind;
use sng_tally::{DecisionKind, OutcomeKind, Tally};
use std::alloc::AllocError;

/// The kinds of events, in the order of the page.
pub(crate) const EVENTS: [EventKind; 7] = [
    EventKind::Datagram,
    EventKind::Broker,
    EventKind::Up,
    EventKind::Down,
    EventKind::Take,
    EventKind::Replace,
    EventKind::Tick,
];

/// Appends how many rows there were, by the kind of their event.
#[tactic(auto, unfolding(crate::specs::Pages::family_text))]
pub(crate) fn push_rows(text: &mut Vec<u8>, tally: &Tally) -> Result<(), AllocError>
    ensures { OnOk result (text.new.items ≡ text.old.items ++ family_text (rows_family tally.now)) }
{
    push_title(text, Metric::Rows)?;
    push_row_samples(text, tally, &EVENTS)
}

fn push_row_samples(
    text: &mut Vec<u8>,
    tally: &Tally,
    kinds: &[EventKind],
) -> Result<(), AllocError>
    ensures { OnOk result (text.new.items ≡ text.old.items
        ++ samples_text (name_of Metric.Rows) (row_samples tally.now kinds.now)) }
{
    for kind in kinds {
        push_row_sample(text, tally, *kind)?;
    }
    Ok(())
}

fn push_row_sample(text: &mut Vec<u8>, tally: &Tally, kind: EventKind) -> Result<(), AllocError>
    ensures { OnOk result (text.new.items ≡ text.old.items
        ++ sample_text (name_of Metric.Rows) (row_sample tally.now kind)) }
{
    let label = Label {
        name: "event",
        value: event_word(kind),
    };
    push_sample(
        text,
        Metric::Rows,
        &[label],
        Value::Whole(u128::from(tally.rows(kind))),
    )
}

/// The word by which the book prints the kind.
fn event_word(kind: EventKind) -> &'static str
    ensures { result.now ≡ kind_text kind }
{
    match kind {
        EventKind::Datagram => "datagram",
        EventKind::Broker => "broker",
        EventKind::Up => "up",
        EventKind::Down => "down",
        EventKind::Take => "take",
        EventKind::Replace => "replace",
        EventKind::Tick => "tick",
    }
}

/// Appends how many decisions there were, by how they came out, by their kind, and by the rule that denied.
#[tactic(auto, unfolding(crate::specs::Pages::family_text))]
pub(crate) fn push_decisions(text: &mut Vec<u8>, tally: &Tally) -> Result<(), AllocError>
    ensures { OnOk result (text.new.items ≡ text.old.items ++ family_text (decisions_family tally.now)) }
{
    push_title(text, Metric::Decisions)?;
    push_kinds(text, tally, &DecisionKind::ALL)
}

#[tactic(auto, unfolding(crate::specs::Counts::decision_samples))]
fn push_kinds(text: &mut Vec<u8>, tally: &Tally, kinds: &[DecisionKind]) -> Result<(), AllocError>
    ensures { OnOk result (text.new.items ≡ text.old.items
        ++ samples_text (name_of Metric.Decisions) (decision_samples tally.now kinds.now)) }
{
    for kind in kinds {
        push_kind(text, tally, *kind)?;
    }
    Ok(())
}

#[tactic(auto, unfolding(crate::specs::Counts::samples_of_kind))]
fn push_kind(text: &mut Vec<u8>, tally: &Tally, kind: DecisionKind) -> Result<(), AllocError>
    ensures { OnOk result (text.new.items ≡ text.old.items
        ++ samples_text (name_of Metric.Decisions) (samples_of_kind tally.now kind)) }
{
    push_outcomes(text, tally, kind, &OutcomeKind::ALL)
}

#[tactic(auto, unfolding(crate::specs::Counts::kind_samples))]
fn push_outcomes(
    text: &mut Vec<u8>,
    tally: &Tally,
    kind: DecisionKind,
    outcomes: &[OutcomeKind],
) -> Result<(), AllocError>
    ensures { OnOk result (text.new.items ≡ text.old.items
        ++ samples_text (name_of Metric.Decisions) (kind_samples tally.now kind outcomes.now)) }
{
    for outcome in outcomes {
        push_decision(text, tally, kind, *outcome)?;
    }
    Ok(())
}

/// Appends how many decisions of this kind came out so, where any can.
fn push_decision(
    text: &mut Vec<u8>,
    tally: &Tally,
    kind: DecisionKind,
    outcome: OutcomeKind,
) -> Result<(), AllocError>
    ensures { OnOk result (text.new.items ≡ text.old.items
        ++ samples_text (name_of Metric.Decisions) (decision_sample tally.now kind outcome)) }
{
    if may_come(kind, outcome) {
        push_came(text, tally, kind, outcome)
    } else {
        Ok(())
    }
}

/// Appends how many decisions of this kind came out so.
fn push_came(
    text: &mut Vec<u8>,
    tally: &Tally,
    kind: DecisionKind,
    outcome: OutcomeKind,
) -> Result<(), AllocError>
    ensures { OnOk result (text.new.items ≡ text.old.items
        ++ sample_text (name_of Metric.Decisions) (came_sample tally.now kind outcome)) }
{
    let labels = [
        Label {
            name: "outcome",
            value: outcome_word(outcome),
        },
        Label {
            name: "kind",
            value: kind.word(),
        },
        Label {
            name: "rule",
            value: rule_word(outcome),
        },
    ];
    push_sample(
        text,
        Metric::Decisions,
        &labels,
        Value::Whole(tally.decisions(kind, outcome)),
    )
}

/// Whether a decision of this kind can come out so.
fn may_come(kind: DecisionKind, outcome: OutcomeKind) -> bool
    ensures { result ≡ may_come kind outcome }
{
    match kind {
        DecisionKind::Announce => is_allowed(outcome),
        DecisionKind::Lost | DecisionKind::Left => is_done(outcome),
        DecisionKind::Outbox => outcome.is_denied(),
        DecisionKind::Connect
        | DecisionKind::Register
        | DecisionKind::Publish
        | DecisionKind::Subscribe
        | DecisionKind::Unsubscribe
        | DecisionKind::Will
        | DecisionKind::Hand
        | DecisionKind::Retry
        | DecisionKind::Forward
        | DecisionKind::Again
        | DecisionKind::End
        | DecisionKind::Frame => !is_done(outcome),
    }
}

fn is_allowed(outcome: OutcomeKind) -> bool
    ensures { result ≡ is_allowed outcome }
{
    match outcome {
        OutcomeKind::Allowed => true,
        OutcomeKind::Done | OutcomeKind::Denied(_) => false,
    }
}

fn is_done(outcome: OutcomeKind) -> bool
    ensures { result ≡ is_done outcome }
{
    match outcome {
        OutcomeKind::Done => true,
        OutcomeKind::Allowed | OutcomeKind::Denied(_) => false,
    }
}

/// How it came out, in a word.
fn outcome_word(outcome: OutcomeKind) -> &'static str
    ensures { result.now ≡ outcome_word outcome }
{
    match outcome {
        OutcomeKind::Allowed => "allowed",
        OutcomeKind::Done => "done",
        OutcomeKind::Denied(_) => "denied",
    }
}

/// The name of the rule that denied, where one did.
fn rule_word(outcome: OutcomeKind) -> &'static str
    ensures { result.now ≡ rule_word outcome }
{
    match outcome {
        OutcomeKind::Allowed | OutcomeKind::Done => "",
        OutcomeKind::Denied(rule) => rule.name(),
    }
}

/// Appends what came and what went.
pub(crate) fn push_traffic(text: &mut Vec<u8>, tally: &Tally) -> Result<(), AllocError>
    ensures { OnOk result (text.new.items ≡ text.old.items ++ page_text (traffic_families tally.now)) }
{
    push_count(
        text,
        Metric::DatagramsReceived,
        tally.rows(EventKind::Datagram),
    )?;
    push_plain(text, Metric::DatagramsSent, Value::Whole(tally.sent()))?;
    push_count(text, Metric::PacketsReceived, tally.rows(EventKind::Broker))?;
    push_plain(text, Metric::PacketsSent, Value::Whole(tally.written()))
}

/// Appends how often the broker's connection and the policy changed.
pub(crate) fn push_changes(text: &mut Vec<u8>, tally: &Tally) -> Result<(), AllocError>
    ensures { OnOk result (text.new.items ≡ text.old.items ++ page_text (change_families tally.now)) }
{
    push_count(text, Metric::ConnectionsMade, tally.rows(EventKind::Up))?;
    push_count(text, Metric::ConnectionsLost, tally.rows(EventKind::Down))?;
    push_count(text, Metric::PoliciesTaken, tally.rows(EventKind::Replace))
}
