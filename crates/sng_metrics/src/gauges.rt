//! The families of a page that tell what is so now, and what the program counts beside its rows.
ghost use Rattle.std.specs.Prelude.{◌≡◌, ◌++◌, OnOk};
ghost use Rattle.sng_metrics.specs.Metrics.{name_of};
ghost use Rattle.sng_metrics.specs.Pages.{counted, family_text, page_text, sample_text, samples_text};
ghost use Rattle.sng_metrics.specs.Gauges.{absent_samples, build_family, client_sample, clients_family};
ghost use Rattle.sng_metrics.specs.Gauges.{fault_families, health_families, present_samples};
ghost use Rattle.sng_metrics.specs.Gauges.{program_families, truth, waiting_families};

use crate::figures::{ClientFigures, Figures};
use crate::health::Health;
use crate::metric::Metric;
use crate::sample::{Label, Value, push_plain, push_sample, push_title};
use std::alloc::AllocError;

/// Appends what is told of the program.
pub(crate) fn push_program(text: &mut Vec<u8>, figures: &Figures<'_>) -> Result<(), AllocError>
    ensures { OnOk result (text.new.items ≡ text.old.items ++ page_text (program_families figures.now)) }
{
    push_build(text, figures.version)?;
    push_plain(
        text,
        Metric::Uptime,
        Value::Whole(u128::from(figures.uptime)),
    )?;
    push_plain(text, Metric::Clock, Value::Millis(figures.clock))
}

/// Appends the version, as a label.
#[tactic(auto, unfolding(crate::specs::Pages::family_text))]
fn push_build(text: &mut Vec<u8>, version: &str) -> Result<(), AllocError>
    ensures { OnOk result (text.new.items ≡ text.old.items ++ family_text (build_family version.now)) }
{
    push_title(text, Metric::BuildInfo)?;
    let label = Label {
        name: "version",
        value: version,
    };
    push_sample(text, Metric::BuildInfo, &[label], Value::Whole(1))
}

/// Appends what the gateway needs to serve.
pub(crate) fn push_health(text: &mut Vec<u8>, health: Health) -> Result<(), AllocError>
    ensures { OnOk result (text.new.items ≡ text.old.items ++ page_text (health_families health)) }
{
    push_plain(text, Metric::BrokerUp, truth(health.broker_is_up))?;
    push_plain(text, Metric::BookTakesRows, truth(health.book_takes_rows))
}

/// 1 for what is so, and 0 for what is not.
fn truth(holds: bool) -> Value
    ensures { result ≡ truth holds }
{
    if holds {
        Value::Whole(1)
    } else {
        Value::Whole(0)
    }
}

/// Appends how many clients are in each state.
#[tactic(auto, unfolding(crate::specs::Pages::family_text))]
pub(crate) fn push_clients(text: &mut Vec<u8>, clients: &ClientFigures) -> Result<(), AllocError>
    ensures { OnOk result (text.new.items ≡ text.old.items ++ family_text (clients_family clients.now)) }
{
    push_title(text, Metric::Clients)?;
    push_present(text, clients)?;
    push_absent(text, clients)
}

/// Appends those that are connected or asleep.
fn push_present(text: &mut Vec<u8>, clients: &ClientFigures) -> Result<(), AllocError>
    ensures { OnOk result (text.new.items ≡ text.old.items
        ++ samples_text (name_of Metric.Clients) (present_samples clients.now)) }
{
    push_client(text, "active", clients.active)?;
    push_client(text, "asleep", clients.asleep)?;
    push_client(text, "awake", clients.awake)
}

/// Appends those that are not connected yet, or no longer.
fn push_absent(text: &mut Vec<u8>, clients: &ClientFigures) -> Result<(), AllocError>
    ensures { OnOk result (text.new.items ≡ text.old.items
        ++ samples_text (name_of Metric.Clients) (absent_samples clients.now)) }
{
    push_client(text, "in_dialogue", clients.in_dialogue)?;
    push_client(text, "disconnected", clients.disconnected)?;
    push_client(text, "lost", clients.lost)
}

/// Appends how many clients are in this state.
fn push_client(text: &mut Vec<u8>, state: &str, count: u64) -> Result<(), AllocError>
    ensures { OnOk result (text.new.items ≡ text.old.items
        ++ sample_text (name_of Metric.Clients) (client_sample state.now count)) }
{
    let label = Label {
        name: "state",
        value: state,
    };
    push_sample(
        text,
        Metric::Clients,
        &[label],
        Value::Whole(u128::from(count)),
    )
}

/// Appends what stands, and what waits.
pub(crate) fn push_waiting(text: &mut Vec<u8>, figures: &Figures<'_>) -> Result<(), AllocError>
    ensures { OnOk result (text.new.items ≡ text.old.items ++ page_text (waiting_families figures.now)) }
{
    push_count(text, Metric::Subscriptions, figures.subscriptions)?;
    push_count(text, Metric::MessagesWaiting, figures.messages_waiting)?;
    push_count(text, Metric::ItemsWaiting, figures.items_waiting)?;
    push_count(text, Metric::InFlight, figures.in_flight)?;
    push_count(text, Metric::RowsWaiting, figures.rows_waiting)
}

/// Appends what was refused, or failed.
pub(crate) fn push_faults(text: &mut Vec<u8>, figures: &Figures<'_>) -> Result<(), AllocError>
    ensures { OnOk result (text.new.items ≡ text.old.items ++ page_text (fault_families figures.now)) }
{
    push_count(text, Metric::PoliciesRefused, figures.refused_policies)?;
    push_count(text, Metric::RefusedEvents, figures.refused_events)?;
    push_count(text, Metric::FailedSends, figures.failed_sends)
}

/// Appends a family of one whole number.
pub(crate) fn push_count(text: &mut Vec<u8>, metric: Metric, count: u64) -> Result<(), AllocError>
    ensures { OnOk result (text.new.items ≡ text.old.items ++ family_text (counted metric count)) }
{
    push_plain(text, metric, Value::Whole(u128::from(count)))
}
