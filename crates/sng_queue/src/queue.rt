//! The messages that wait for one client, and its open exchange.
ghost use Rattle.std.specs.Prelude.{◌≡◌, ◌<◌, ◌≤◌, ◌==◌, [], ◌∷◌, ◌++◌, length, drop, slice_get, nat_le, None};
ghost use Rattle.std.specs.Prelude.{IfOk, MatchResult};
ghost use Rattle.std.specs.Map.Iter.{ShowsInOrder, deref};
ghost use Rattle.std.specs.Option.{option_copied};
ghost use Rattle.sng_queue.specs.declared.limits.TheConstants.{MAX_QUEUED};
ghost use Rattle.sng_queue.specs.Messages.{Message};
ghost use Rattle.sng_queue.specs.Exchanges.{IsExchangeOn, repeat, MayRepeat};
ghost use Rattle.sng_queue.specs.Buffers.{nothing, settled, settle, announce, await_ack};

use crate::{Exchange, MAX_QUEUED, Parcel, QueueCopy, Sending, TopicIdKind, Waiting};
use std::alloc::{AllocError, Global};
use std::collections::LinkedList;
use std::collections::linked_list::Iter;
use std::marker::Model;

/// The messages that wait for a client, the oldest first, and at most one exchange: a topic id is announced
/// for the front, or a message that left the front waits for its PUBACK. A message brings the memory for its
/// place (`Parcel`), so no call but `copy` takes memory. Contracts see the list and the exchange.
#[derive(Debug, Drop)]
pub struct Queue {
    waiting: LinkedList<Waiting>,
    exchange: Option<Exchange>,
}

impl Model for Queue {
    ghost use Rattle.std.specs.Prelude.{◌≤◌, length};
    ghost use Rattle.sng_queue.specs.declared.limits.TheConstants.{MAX_QUEUED};
    ghost use Rattle.sng_queue.specs.Exchanges.{IsExchangeOn};
    ghost use Rattle.sng_queue.specs.Buffers.{Buffer};

    ghost Value = { Buffer };

    ghost view = { λ q. record { waiting = q.waiting; exchange = q.exchange } };

    ghost invariant = { λ q. (length q.waiting ≤ MAX_QUEUED) × IsExchangeOn q.waiting q.exchange };
}

impl Queue {
    /// A queue in which nothing waits and no exchange is open. Takes no memory.
    pub fn new(alloc: Global) -> Queue
        ensures { result ≡ nothing }
    {
        Queue {
            waiting: LinkedList::new(alloc),
            exchange: None,
        }
    }

    /// Adds a message behind the others. Where `MAX_QUEUED` wait it is given back, and nothing changes.
    pub fn push(&mut self, message: Parcel) -> Result<(), Parcel>
        ensures { MatchResult result
            (λ _. (length self.old.waiting < MAX_QUEUED)
            × (self.new ≡ record self.old { waiting = self.old.waiting ++ message ∷ [] }))
            (λ refused. (MAX_QUEUED ≤ length self.old.waiting)
            × (refused ≡ message)
            × (self.new ≡ self.old)) }
    {
        if self.is_full() {
            return Err(message);
        }
        let mut place = message.into_place();
        match self.waiting.append(&mut place) {
            Ok(()) => Ok(()),
            Err(_) => unreachable!(),
        }
    }

    /// How many messages wait, `MAX_QUEUED` at the most.
    pub fn len(&self) -> usize
        ensures len { result ≡ length self.now.waiting }
        ensures within { length self.now.waiting ≤ MAX_QUEUED }
    {
        self.waiting.len()
    }

    /// Whether `MAX_QUEUED` messages wait.
    pub fn is_full(&self) -> bool
        ensures { result ≡ nat_le MAX_QUEUED (length self.now.waiting) }
    {
        self.len() >= MAX_QUEUED
    }

    /// Whether no message waits.
    pub fn is_empty(&self) -> bool
        ensures { result ≡ (length self.now.waiting == 0) }
    {
        self.waiting.is_empty()
    }

    /// The message at this place, the front being at 0.
    pub fn at(&self, place: usize) -> Option<&Waiting>
        ensures { option_copied result ≡ slice_get self.now.waiting place }
    {
        self.waiting.iter().nth(place)
    }

    /// The messages, the oldest first.
    pub fn iter(&self) -> Iter<'_, Waiting>
        ensures messages { result ≡ self.now.waiting }
        ensures order { ShowsInOrder (deref {X = Message}) }
    {
        self.waiting.iter()
    }

    /// The messages from this place on, the front being at 0, the oldest first. Takes one walk up to there.
    pub fn iter_from(&self, place: usize) -> Iter<'_, Waiting>
        ensures messages { result ≡ drop place self.now.waiting }
        ensures within { length self.now.waiting ≤ MAX_QUEUED }
    {
        let mut messages = self.waiting.iter();
        for _passed in 0..place {
            let _ = messages.next();
        }
        messages
    }

    /// Takes the front out, and with it an exchange that announced it. None, and nothing changes, where
    /// nothing waits or another message waits for its PUBACK.
    pub fn settle(&mut self) -> Option<Waiting>
        ensures front { result ≡ settled self.old }
        ensures rest { self.new ≡ settle self.old }
    {
        match self.exchange {
            Some(Exchange::Acknowledging(_, _, _)) => None,
            Some(Exchange::Announcing(_)) | None => {
                self.close();
                self.waiting.pop_front()
            }
        }
    }

    /// Opens the exchange by which a normal topic id is announced for the front, sent at this clock. Nothing
    /// changes where nothing waits or an exchange is open.
    pub fn announce(&mut self, topic_id: u16, msg_id: u16, clock: u64)
        ensures { self.new ≡ announce self.old topic_id msg_id clock }
    {
        if self.exchange.is_some() || self.waiting.is_empty() {
            return;
        }
        let sending = Sending::first(topic_id, msg_id, clock);
        self.exchange = Some(Exchange::Announcing(sending));
    }

    /// Moves the front into an exchange that waits for its PUBACK, sent at this clock. Nothing changes where
    /// nothing waits or an exchange is open.
    pub fn await_ack(&mut self, kind: TopicIdKind, topic_id: u16, msg_id: u16, clock: u64)
        ensures { self.new ≡ await_ack self.old kind topic_id msg_id clock }
    {
        if self.exchange.is_some() {
            return;
        }
        if let Some(front) = self.waiting.pop_front() {
            let sending = Sending::first(topic_id, msg_id, clock);
            self.exchange = Some(Exchange::Acknowledging(sending, kind, front));
        }
    }

    /// The open exchange.
    pub fn exchange(&self) -> Option<&Exchange>
        ensures value { option_copied result ≡ self.now.exchange }
        ensures sound { IsExchangeOn self.now.waiting self.now.exchange }
    {
        self.exchange.as_ref()
    }

    /// Counts one more sending of the open exchange, at this clock, which was sent again fewer than
    /// `MAX_TRIES` times. Nothing changes where none is open.
    pub fn repeat(&mut self, clock: u64)
        requires { MayRepeat self.old.exchange }
        ensures { self.new ≡ record self.old { exchange = repeat self.old.exchange clock } }
    {
        if let Some(exchange) = &mut self.exchange {
            exchange.repeat(clock);
        }
    }

    /// Ends the open exchange. What was announced still waits, a message that left the front is gone.
    pub fn close(&mut self)
        ensures { self.new ≡ record self.old { exchange = None } }
    {
        self.exchange = None;
    }

    /// Takes every message out and ends the open exchange.
    pub fn empty(&mut self)
        ensures { self.new ≡ nothing }
    {
        self.close();
        self.waiting.clear();
    }

    /// What waits and the open exchange, in memory of its own for just these but for the payloads, which the
    /// two share. Only memory can fail.
    pub fn copy(&self, alloc: Global) -> Result<QueueCopy, AllocError>
        ensures { IfOk result (λ c. c ≡ self.now) }
    {
        QueueCopy::of(alloc, &self.waiting, &self.exchange)
    }
}
