//! The addresses of a client: where a CONNECT that names it comes from (MQTT-SN 1.2, 5.4.4), whether that is
//! accepted or not.
ghost use Rattle.std.specs.Prelude.{◌≡◌, ◌++◌, IfOk, OnOk};
ghost use Rattle.sng_book.specs.declared.address.Address.{Address};
ghost use Rattle.sng_frames.specs.Reading.{frame_of};
ghost use Rattle.sng_history.specs.Causes.{datagram_cause, frame_cause};
ghost use Rattle.sng_isolation.specs.Own.{named_from, names};
ghost use Rattle.sng_two_runs.specs.Runs.{named_by};

use sng_book::{Address, Event};
use sng_frames::{FrameFault, SnFrame, decode};
use sng_text::{ClientId, Compare};
use std::alloc::{AllocError, Global};

/// Adds where the CONNECTs of these events come from that name the client. An `Err` is a failed allocation.
pub fn push_own(
    own: &mut Vec<Address>,
    alloc: Global,
    events: &[Event],
    id: &ClientId,
) -> Result<(), AllocError>
    ensures { OnOk result (own.new.items ≡ own.old.items ++ named_by id.now events.now) }
{
    for event in events {
        push_named(own, alloc, event, id)?;
    }
    Ok(())
}

/// Adds where the event comes from, where it is a CONNECT that names the client.
fn push_named(
    own: &mut Vec<Address>,
    alloc: Global,
    event: &Event,
    id: &ClientId,
) -> Result<(), AllocError>
    ensures { OnOk result (own.new.items ≡ own.old.items ++ named_from id.now event.now) }
{
    match event {
        Event::Datagram(from, datagram) => {
            if names(alloc, datagram.as_slice(), id)? {
                own.push(*from)?;
            }
            Ok(())
        }
        Event::Broker(_)
        | Event::Up
        | Event::Down
        | Event::Take
        | Event::Replace(_)
        | Event::Tick(_) => Ok(()),
    }
}

/// Whether the datagram is a CONNECT that names the client. An `Err` is a failed allocation.
fn names(alloc: Global, datagram: &[u8], id: &ClientId) -> Result<bool, AllocError>
    ensures { IfOk result (λ named. (from : Address)
        → named ≡ names id.now (datagram_cause from (frame_of datagram.now))) }
{
    match decode(alloc, datagram) {
        Ok(frame) => Ok(is_connect_of(&frame, id)),
        Err(FrameFault::Malformed) => Ok(false),
        Err(FrameFault::NotSupported) => Ok(false),
        Err(FrameFault::TooLong) => Ok(false),
        Err(FrameFault::Memory) => Err(AllocError),
    }
}

/// Whether the message is a CONNECT that names the client.
fn is_connect_of(frame: &SnFrame, id: &ClientId) -> bool
    ensures { (from : Address) → result ≡ names id.now (frame_cause from frame.now) }
{
    match frame {
        SnFrame::Connect(connect) => connect.client_id.same(id),
        SnFrame::ConnectAck(_)
        | SnFrame::WillTopicRequest
        | SnFrame::WillTopic(_)
        | SnFrame::WillMessageRequest
        | SnFrame::WillMessage(_)
        | SnFrame::Register(_)
        | SnFrame::RegisterAck(_)
        | SnFrame::Publish(_)
        | SnFrame::PublishAck(_)
        | SnFrame::PublishComplete(_)
        | SnFrame::PublishReceived(_)
        | SnFrame::PublishRelease(_)
        | SnFrame::Subscribe(_)
        | SnFrame::SubscribeAck(_)
        | SnFrame::Unsubscribe(_)
        | SnFrame::UnsubscribeAck(_)
        | SnFrame::PingRequest(_)
        | SnFrame::PingResponse
        | SnFrame::Disconnect(_)
        | SnFrame::WillTopicUpdate(_)
        | SnFrame::WillTopicResponse(_)
        | SnFrame::WillMessageUpdate(_)
        | SnFrame::WillMessageResponse(_) => false,
    }
}
