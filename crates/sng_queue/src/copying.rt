//! What waits for one client and its open exchange, in as little memory as it takes.
ghost use Rattle.std.specs.Prelude.{◌≡◌, IfOk};
ghost use Rattle.std.specs.Option.{option_copied};

use crate::{Exchange, Waiting};
use sng_text::{Compare, all_same};
use std::alloc::{AllocError, Global};
use std::collections::LinkedList;
use std::marker::Model;

/// The messages that wait for a client, the oldest first, and the open exchange. It is never changed, and has
/// no room for more. Contracts see the list and the exchange.
#[derive(Debug, Drop)]
pub struct QueueCopy {
    waiting: Vec<Waiting>,
    exchange: Option<Exchange>,
}

impl Model for QueueCopy {
    ghost use Rattle.sng_queue.specs.Buffers.{Buffer};

    ghost Value = { Buffer };

    ghost view = { λ q. record { waiting = q.waiting.items; exchange = q.exchange } };
}

impl QueueCopy {
    /// These messages and this exchange, in memory of its own for just these but for what the messages say,
    /// which the two share. Only memory can fail.
    pub(crate) fn of(
        alloc: Global,
        waiting: &LinkedList<Waiting>,
        exchange: &Option<Exchange>,
    ) -> Result<QueueCopy, AllocError>
        ensures { IfOk result
            (λ c. c ≡ record { waiting = waiting.now; exchange = exchange.now }) }
    {
        Ok(QueueCopy {
            waiting: copy_messages(alloc, waiting)?,
            exchange: copy_exchange(exchange)?,
        })
    }

    /// The messages, the oldest first.
    pub fn waiting(&self) -> &[Waiting]
        ensures { result.now ≡ self.now.waiting }
    {
        self.waiting.as_slice()
    }

    /// The open exchange.
    pub fn exchange(&self) -> Option<&Exchange>
        ensures { option_copied result ≡ self.now.exchange }
    {
        self.exchange.as_ref()
    }
}

impl Compare for QueueCopy {
    fn same(&self, other: &QueueCopy) -> bool {
        all_same(self.waiting(), other.waiting()) && self.exchange.same(&other.exchange)
    }
}

fn copy_messages(alloc: Global, messages: &LinkedList<Waiting>) -> Result<Vec<Waiting>, AllocError>
    ensures { IfOk result (λ v. v.items ≡ messages.now) }
{
    let mut copies = Vec::with_capacity(alloc, messages.len())?;
    for message in messages.iter() {
        copies.push(message.copy()?)?;
    }
    Ok(copies)
}

fn copy_exchange(exchange: &Option<Exchange>) -> Result<Option<Exchange>, AllocError>
    ensures { IfOk result (λ e. e ≡ exchange.now) }
{
    match exchange {
        None => Ok(None),
        Some(exchange) => Ok(Some(exchange.copy()?)),
    }
}
