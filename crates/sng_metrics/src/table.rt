//! The table of `sng status`.
ghost use Rattle.std.specs.Prelude.{◌≡◌, ◌++◌, OnOk};
ghost use Rattle.sng_metrics.specs.Tables.{book_text, broker_text, clients_text, counts_text, number_text};
ghost use Rattle.sng_metrics.specs.Tables.{absent_text, present_text, datagrams_text, health_text, table_text};
ghost use Rattle.sng_metrics.specs.Tables.{uptime_text, version_text};

use crate::figures::ClientFigures;
use crate::health::Health;
use crate::number::push_number;
use crate::sample::push_three;
use crate::summary::{Summary, Traffic};
use std::alloc::AllocError;

/// Appends the table: a line for each of the figures that matter.
pub fn push_table(text: &mut Vec<u8>, summary: &Summary) -> Result<(), AllocError>
    ensures { OnOk result (text.new.items ≡ text.old.items ++ table_text summary.now) }
{
    push_health(text, summary.health)?;
    push_clients(text, &summary.clients)?;
    push_counts(text, &summary.traffic)?;
    push_datagrams(text, &summary.traffic)?;
    push_uptime(text, summary.uptime)?;
    push_version(text, summary.version.as_slice())
}

/// Appends the lines of the health.
#[tactic(auto, unfolding(crate::specs::Tables::health_text))]
fn push_health(text: &mut Vec<u8>, health: Health) -> Result<(), AllocError>
    ensures { OnOk result (text.new.items ≡ text.old.items ++ health_text health) }
{
    let line = health.line().as_bytes();
    let broker = broker_line(health.broker_is_up).as_bytes();
    let book = book_line(health.book_takes_rows).as_bytes();
    push_three(text, b"health            ", line, broker)?;
    text.extend_from_slice(book)
}

#[tactic(auto, unfolding(crate::specs::Tables::broker_text))]
fn broker_line(is_up: bool) -> &'static str
    ensures { result.now ≡ broker_text is_up }
{
    if is_up {
        "broker            up\n"
    } else {
        "broker            not up\n"
    }
}

#[tactic(auto, unfolding(crate::specs::Tables::book_text))]
fn book_line(takes_rows: bool) -> &'static str
    ensures { result.now ≡ book_text takes_rows }
{
    if takes_rows {
        "book              takes rows\n"
    } else {
        "book              takes no rows\n"
    }
}

/// Appends the line of the clients.
#[tactic(auto, unfolding(crate::specs::Tables::clients_text))]
fn push_clients(text: &mut Vec<u8>, clients: &ClientFigures) -> Result<(), AllocError>
    ensures { OnOk result (text.new.items ≡ text.old.items ++ clients_text clients.now) }
{
    push_present(text, clients)?;
    push_absent(text, clients)
}

/// Appends those that are connected or asleep.
#[tactic(auto, unfolding(crate::specs::Tables::present_text))]
fn push_present(text: &mut Vec<u8>, clients: &ClientFigures) -> Result<(), AllocError>
    ensures { OnOk result (text.new.items ≡ text.old.items ++ present_text clients.now) }
{
    push_figure(text, "clients           active ", clients.active)?;
    push_figure(text, ", asleep ", clients.asleep)?;
    push_figure(text, ", awake ", clients.awake)
}

/// Appends those that are not connected yet, or no longer.
#[tactic(auto, unfolding(crate::specs::Tables::absent_text))]
fn push_absent(text: &mut Vec<u8>, clients: &ClientFigures) -> Result<(), AllocError>
    ensures { OnOk result (text.new.items ≡ text.old.items ++ absent_text clients.now) }
{
    push_figure(text, ", in dialogue ", clients.in_dialogue)?;
    push_figure(text, ", disconnected ", clients.disconnected)?;
    push_figure(text, ", lost ", clients.lost)
}

/// Appends what waits, and what was written and denied.
#[tactic(auto, unfolding(crate::specs::Tables::counts_text))]
fn push_counts(text: &mut Vec<u8>, traffic: &Traffic) -> Result<(), AllocError>
    ensures { OnOk result (text.new.items ≡ text.old.items ++ counts_text traffic.now) }
{
    push_figure(text, "\nmessages waiting  ", traffic.messages_waiting)?;
    push_figure(text, "\nin flight         ", traffic.in_flight)?;
    push_figure(text, "\nrows              ", traffic.rows)?;
    push_figure(text, "\nrows waiting      ", traffic.rows_waiting)?;
    push_figure(text, "\ndenied            ", traffic.denied)
}

/// Appends the line of the datagrams.
#[tactic(auto, unfolding(crate::specs::Tables::datagrams_text))]
fn push_datagrams(text: &mut Vec<u8>, traffic: &Traffic) -> Result<(), AllocError>
    ensures { OnOk result (text.new.items ≡ text.old.items ++ datagrams_text traffic.now) }
{
    push_figure(text, "\ndatagrams         received ", traffic.received)?;
    push_figure(text, ", sent ", traffic.sent)
}

/// Appends for how long the gateway has been there.
#[tactic(auto, unfolding(crate::specs::Tables::uptime_text))]
fn push_uptime(text: &mut Vec<u8>, seconds: u64) -> Result<(), AllocError>
    ensures { OnOk result (text.new.items ≡ text.old.items ++ uptime_text seconds) }
{
    push_figure(text, "\nuptime            ", seconds / 86400)?;
    push_figure(text, " d ", seconds / 3600 % 24)?;
    push_figure(text, " h ", seconds / 60 % 60)?;
    push_figure(text, " min ", seconds % 60)?;
    text.extend_from_slice(b" s\n")
}

/// Appends the version of the program.
#[tactic(auto, unfolding(crate::specs::Tables::version_text))]
fn push_version(text: &mut Vec<u8>, version: &[u8]) -> Result<(), AllocError>
    ensures { OnOk result (text.new.items ≡ text.old.items ++ version_text version.now) }
{
    push_three(text, b"version           ", version, b"\n")
}

/// Appends words, and a number behind them.
#[tactic(auto, unfolding(crate::specs::Tables::number_text))]
fn push_figure(text: &mut Vec<u8>, words: &str, number: u64) -> Result<(), AllocError>
    ensures { OnOk result (text.new.items ≡ text.old.items ++ number_text words.now number) }
{
    text.extend_from_slice(words.as_bytes())?;
    push_number(text, u128::from(number))
}
