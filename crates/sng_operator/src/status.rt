//! What `status` prints: how a running gateway stands.
ghost use Rattle.std.specs.Prelude.{◌≡◌, ◌++◌, OnOk};
ghost use Rattle.sng_questions.specs.Places.{count_text};
ghost use Rattle.sng_operator.specs.Overviews.{absent_text, broker_text, clients_text, last_text};
ghost use Rattle.sng_operator.specs.Overviews.{present_text, up_text, waiting_text, policy_text, rows_text};
ghost use Rattle.sng_operator.specs.Overviews.{status_text};

use sng_book::print::push_decimal;
use sng_core::census::{Census, ClientCounts, ListedCounts};
use std::alloc::AllocError;

/// How a gateway stands.
#[derive(Clone, Copy, Debug, PartialEq, Eq)]
pub struct Overview {
    pub census: Census,
    /// The rows of the book.
    pub rows: u64,
    /// How many rows the book may have.
    pub limit: u64,
}

/// Appends the lines of `status`.
pub fn push_status(text: &mut Vec<u8>, overview: &Overview) -> Result<(), AllocError>
    ensures { OnOk result (text.new.items ≡ text.old.items ++ status_text overview.now) }
{
    let census = &overview.census;
    push_broker(text, census)?;
    push_clients(text, &census.clients)?;
    push_waiting(text, &census.clients)?;
    push_policy(text, &census.policy)?;
    push_rows(text, overview)
}

/// Appends the line of the broker.
fn push_broker(text: &mut Vec<u8>, census: &Census) -> Result<(), AllocError>
    ensures { OnOk result (text.new.items ≡ text.old.items ++ broker_text census.now) }
{
    text.extend_from_slice(up_text(census.is_up).as_bytes())?;
    push_count(text, ", waiting: ", census.items as u64)?;
    push_last(text, ", in flight: ", census.in_flight as u64)
}

/// Whether the broker is there.
fn up_text(is_up: bool) -> &'static str
    ensures { result.now ≡ up_text is_up }
{
    if is_up {
        "status broker: up"
    } else {
        "status broker: not up"
    }
}

/// Appends the line of the clients, by state.
fn push_clients(text: &mut Vec<u8>, clients: &ClientCounts) -> Result<(), AllocError>
    ensures { OnOk result (text.new.items ≡ text.old.items ++ clients_text clients.now) }
{
    push_present(text, clients)?;
    push_absent(text, clients)
}

/// Appends those that are connected or asleep.
fn push_present(text: &mut Vec<u8>, clients: &ClientCounts) -> Result<(), AllocError>
    ensures { OnOk result (text.new.items ≡ text.old.items ++ present_text clients.now) }
{
    push_count(text, "status clients: active ", clients.active as u64)?;
    push_count(text, ", asleep ", clients.asleep as u64)?;
    push_count(text, ", awake ", clients.awake as u64)
}

/// Appends those that are not connected yet, or no longer.
fn push_absent(text: &mut Vec<u8>, clients: &ClientCounts) -> Result<(), AllocError>
    ensures { OnOk result (text.new.items ≡ text.old.items ++ absent_text clients.now) }
{
    push_count(text, ", in dialogue ", clients.in_dialogue as u64)?;
    push_count(text, ", disconnected ", clients.disconnected as u64)?;
    push_last(text, ", lost ", clients.lost as u64)
}

/// Appends the line of what stands and waits for clients.
fn push_waiting(text: &mut Vec<u8>, clients: &ClientCounts) -> Result<(), AllocError>
    ensures { OnOk result (text.new.items ≡ text.old.items ++ waiting_text clients.now) }
{
    push_count(text, "status subscriptions: ", clients.filters as u64)?;
    push_last(text, ", messages waiting: ", clients.messages as u64)
}

/// Appends the line of the policy.
fn push_policy(text: &mut Vec<u8>, policy: &ListedCounts) -> Result<(), AllocError>
    ensures { OnOk result (text.new.items ≡ text.old.items ++ policy_text policy.now) }
{
    push_count(text, "status policy: clients ", policy.clients as u64)?;
    push_count(text, ", sources ", policy.sources as u64)?;
    push_last(text, ", topics ", policy.topics as u64)
}

/// Appends the line of the book.
fn push_rows(text: &mut Vec<u8>, overview: &Overview) -> Result<(), AllocError>
    ensures { OnOk result (text.new.items ≡ text.old.items ++ rows_text overview.now) }
{
    push_count(text, "status rows: ", overview.rows)?;
    push_last(
        text,
        ", left: ",
        overview.limit.saturating_sub(overview.rows),
    )
}

/// Appends the words, and the number behind them.
fn push_count(text: &mut Vec<u8>, words: &str, count: u64) -> Result<(), AllocError>
    ensures { OnOk result (text.new.items ≡ text.old.items ++ count_text words.now count) }
{
    text.extend_from_slice(words.as_bytes())?;
    push_decimal(text, count)
}

/// The same at the end of a line.
fn push_last(text: &mut Vec<u8>, words: &str, count: u64) -> Result<(), AllocError>
    ensures { OnOk result (text.new.items ≡ text.old.items ++ last_text words.now count) }
{
    push_count(text, words, count)?;
    text.extend_from_slice(b"\n")
}
