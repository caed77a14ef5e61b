//! The figures that matter, as `sng status` reads them off a page.
ghost use Rattle.std.specs.Prelude.{◌≡◌, ◌⊎◌, ◌==◌, IfOk, IfErr, Ok};
ghost use Rattle.std.specs.List.{slice_split};
ghost use Rattle.sng_metrics.specs.Readings.{figure_in, texts};
ghost use Rattle.sng_metrics.specs.Summaries.{AreClientsIn, IsFaultIn, IsHealthIn, IsSummaryIn};
ghost use Rattle.sng_metrics.specs.Summaries.{IsTrafficIn, IsTruth, IsVersionIn};

use crate::figures::ClientFigures;
use crate::health::Health;
use crate::metric::Metric;
use crate::reading::{figure_in, label_in, lines_of};
use std::alloc::{AllocError, Global};
use thiserror::Error;

/// The figures that matter.
#[derive(Debug, Drop)]
pub struct Summary {
    pub health: Health,
    pub clients: ClientFigures,
    pub traffic: Traffic,
    /// Whole seconds since the start.
    pub uptime: u64,
    /// Of the program.
    pub version: Vec<u8>,
}

/// What came, what went, and what waits.
#[derive(Clone, Copy, Debug, PartialEq, Eq)]
pub struct Traffic {
    /// Rows of the book.
    pub rows: u64,
    /// Those that are not known to be on disk yet.
    pub rows_waiting: u64,
    /// Messages that wait for clients.
    pub messages_waiting: u64,
    /// Publishes that the broker has not acknowledged yet.
    pub in_flight: u64,
    /// Decisions that denied something.
    pub denied: u64,
    /// Datagrams of devices.
    pub received: u64,
    /// Datagrams for devices.
    pub sent: u64,
}

/// What keeps a page from being read.
#[derive(Clone, Copy, Debug, PartialEq, Eq, Error)]
pub enum SummaryFault {
    /// No line of the page has this figure.
    #[error("the page has no {0}")]
    Missing(Metric),
    /// What stands there is not a number.
    #[error("{0} is no whole number")]
    Unreadable(Metric),
    /// An allocation failed.
    #[error("out of memory")]
    Memory,
}

impl From<AllocError> for SummaryFault {
    ghost use Rattle.std.specs.Prelude.{◌≡◌};
    ghost use Rattle.sng_metrics.specs.declared.summary.SummaryFault.TheVariants.{Memory};

    ghost from_gives = { λ _ fault. fault ≡ Memory };

    fn from(_error: AllocError) -> SummaryFault {
        SummaryFault::Memory
    }
}

/// Reads the figures off the text of a page.
pub fn read_summary(alloc: Global, page: &[u8]) -> Result<Summary, SummaryFault>
    ensures read { IfOk result (IsSummaryIn (slice_split (λ b. b == 10) page.now)) }
    ensures fault { IfErr result (IsFaultIn (slice_split (λ b. b == 10) page.now)) }
{
    let lines = lines_of(alloc, page)?;
    summary_in(alloc, &lines)
}

fn summary_in(alloc: Global, lines: &[&[u8]]) -> Result<Summary, SummaryFault>
    ensures read { IfOk result (IsSummaryIn (texts lines.now)) }
    ensures fault { IfErr result (IsFaultIn (texts lines.now)) }
{
    let health = health_in(lines)?;
    let clients = clients_in(lines)?;
    let traffic = traffic_in(lines)?;
    let uptime = figure(lines, Metric::Uptime, " ")?;
    let version = version_in(alloc, lines)?;
    Ok(Summary {
        health,
        clients,
        traffic,
        uptime,
        version,
    })
}

/// The figure whose lines go on so behind its name.
fn figure(lines: &[&[u8]], metric: Metric, labels: &str) -> Result<u64, SummaryFault>
    ensures read { IfOk result (λ number. figure_in (texts lines.now) metric labels.now ≡ Ok number) }
    ensures fault { IfErr result (IsFaultIn (texts lines.now)) }
{
    figure_in(lines, metric, labels)
}

fn health_in(lines: &[&[u8]]) -> Result<Health, SummaryFault>
    ensures read { IfOk result (IsHealthIn (texts lines.now)) }
    ensures fault { IfErr result (IsFaultIn (texts lines.now)) }
{
    Ok(Health {
        broker_is_up: truth(lines, Metric::BrokerUp)?,
        book_takes_rows: truth(lines, Metric::BookTakesRows)?,
    })
}

/// Whether the figure is 1.
fn truth(lines: &[&[u8]], metric: Metric) -> Result<bool, SummaryFault>
    ensures read { IfOk result (IsTruth (texts lines.now) metric) }
    ensures fault { IfErr result (IsFaultIn (texts lines.now)) }
{
    let number = figure(lines, metric, " ")?;
    Ok(number == 1)
}

fn clients_in(lines: &[&[u8]]) -> Result<ClientFigures, SummaryFault>
    ensures read { IfOk result (AreClientsIn (texts lines.now)) }
    ensures fault { IfErr result (IsFaultIn (texts lines.now)) }
{
    Ok(ClientFigures {
        active: figure(lines, Metric::Clients, "{state=\"active\"} ")?,
        asleep: figure(lines, Metric::Clients, "{state=\"asleep\"} ")?,
        awake: figure(lines, Metric::Clients, "{state=\"awake\"} ")?,
        in_dialogue: figure(lines, Metric::Clients, "{state=\"in_dialogue\"} ")?,
        disconnected: figure(lines, Metric::Clients, "{state=\"disconnected\"} ")?,
        lost: figure(lines, Metric::Clients, "{state=\"lost\"} ")?,
    })
}

fn traffic_in(lines: &[&[u8]]) -> Result<Traffic, SummaryFault>
    ensures read { IfOk result (IsTrafficIn (texts lines.now)) }
    ensures fault { IfErr result (IsFaultIn (texts lines.now)) }
{
    Ok(Traffic {
        rows: figure(lines, Metric::Rows, "{")?,
        rows_waiting: figure(lines, Metric::RowsWaiting, " ")?,
        messages_waiting: figure(lines, Metric::MessagesWaiting, " ")?,
        in_flight: figure(lines, Metric::InFlight, " ")?,
        denied: figure(lines, Metric::Decisions, "{outcome=\"denied\",")?,
        received: figure(lines, Metric::DatagramsReceived, " ")?,
        sent: figure(lines, Metric::DatagramsSent, " ")?,
    })
}

/// The version of the program.
fn version_in(alloc: Global, lines: &[&[u8]]) -> Result<Vec<u8>, SummaryFault>
    ensures read { IfOk result (λ version. IsVersionIn (texts lines.now) version.items) }
    ensures fault { IfErr result (IsFaultIn (texts lines.now)) }
{
    match label_in(lines, Metric::BuildInfo.name(), "{version=\"") {
        Some(version) => Ok(Vec::from_slice(alloc, version)?),
        None => Err(SummaryFault::Missing(Metric::BuildInfo)),
    }
}
