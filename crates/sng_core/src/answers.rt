//! What a denied message is noted as, and the datagrams that answer a client (MQTT-SN 1.2, 5.4 and 6.14).
ghost use Rattle.std.specs.Prelude.{◌≡◌, ◌∷◌, ◌++◌, [], IfOk, OnOk};
ghost use Rattle.sng_history.specs.Answers.{denied_note, code_of, form_code, room_code, refused, dismissed};
ghost use Rattle.sng_history.specs.Answers.{connack, welcome};
ghost use Rattle.sng_history.specs.Answers.{no_flags};
ghost use Rattle.sng_frames.specs.Writing.{written};

use sng_book::{
    Address, Decision, Denial, FormDenial, Out, Outcome, Outs, OutsPair, RoomDenial, Who,
};
use sng_frames::{
    Connect, Flags, FrameQos, ReturnCode, SnFrame, SubscribeAck, TopicAck, TopicIdType,
    write_connect_ack, write_disconnect, write_publish_ack, write_register_ack,
    write_subscribe_ack, write_unsubscribe_ack, write_will_message_request,
    write_will_message_response, write_will_topic_request, write_will_topic_response,
};
use std::alloc::{AllocError, Global};

/// The note of a message that is denied before a name was read: of an ask under its own kind, of any other as
/// a frame.
pub fn denied_note(message: &SnFrame, who: Who, rule: Denial) -> Decision
    ensures { result ≡ denied_note message.now who rule }
{
    let outcome = Outcome::Denied(rule);
    match message {
        SnFrame::Register(_) => Decision::Register(who, None, outcome),
        SnFrame::Publish(_) => Decision::Publish(who, None, outcome),
        SnFrame::Subscribe(_) => Decision::Subscribe(who, None, outcome),
        SnFrame::Unsubscribe(_) => Decision::Unsubscribe(who, None, outcome),
        SnFrame::WillTopic(_) => Decision::Will(who, None, outcome),
        SnFrame::WillMessage(_) => Decision::Will(who, None, outcome),
        SnFrame::WillTopicUpdate(_) => Decision::Will(who, None, outcome),
        SnFrame::WillMessageUpdate(_) => Decision::Will(who, None, outcome),
        SnFrame::Connect(_) => Decision::Frame(who, outcome),
        SnFrame::ConnectAck(_) => Decision::Frame(who, outcome),
        SnFrame::WillTopicRequest => Decision::Frame(who, outcome),
        SnFrame::WillMessageRequest => Decision::Frame(who, outcome),
        SnFrame::RegisterAck(_) => Decision::Frame(who, outcome),
        SnFrame::PublishAck(_) => Decision::Frame(who, outcome),
        SnFrame::PublishComplete(_) => Decision::Frame(who, outcome),
        SnFrame::PublishReceived(_) => Decision::Frame(who, outcome),
        SnFrame::PublishRelease(_) => Decision::Frame(who, outcome),
        SnFrame::SubscribeAck(_) => Decision::Frame(who, outcome),
        SnFrame::UnsubscribeAck(_) => Decision::Frame(who, outcome),
        SnFrame::PingRequest(_) => Decision::Frame(who, outcome),
        SnFrame::PingResponse => Decision::Frame(who, outcome),
        SnFrame::Disconnect(_) => Decision::Frame(who, outcome),
        SnFrame::WillTopicResponse(_) => Decision::Frame(who, outcome),
        SnFrame::WillMessageResponse(_) => Decision::Frame(who, outcome),
    }
}

/// The ReturnCode of a rule (5.3.10).
pub fn code_of(rule: &Denial) -> ReturnCode
    ensures { result ≡ code_of rule.now }
{
    match rule {
        Denial::Form(rule) => form_code(rule),
        Denial::Grant(_) => ReturnCode::NOT_SUPPORTED,
        Denial::Room(rule) => room_code(rule),
        Denial::Peer(_) => ReturnCode::NOT_SUPPORTED,
    }
}

fn form_code(rule: &FormDenial) -> ReturnCode
    ensures { result ≡ form_code rule.now }
{
    match rule {
        FormDenial::UnknownId(_, _) => ReturnCode::INVALID_TOPIC_ID,
        FormDenial::Malformed
        | FormDenial::NotSupported
        | FormDenial::NoSession
        | FormDenial::BadName
        | FormDenial::BadFilter
        | FormDenial::IdType
        | FormDenial::OutOfTurn => ReturnCode::NOT_SUPPORTED,
    }
}

fn room_code(rule: &RoomDenial) -> ReturnCode
    ensures { result ≡ room_code rule.now }
{
    match rule {
        RoomDenial::UpstreamDown | RoomDenial::Full(_) => ReturnCode::CONGESTION,
        RoomDenial::TooLong => ReturnCode::NOT_SUPPORTED,
    }
}

/// The acknowledgement of a client's message that is refused; what is not an ask has none.
pub fn refused(
    alloc: Global,
    to: Address,
    message: &SnFrame,
    rule: &Denial,
    outs: &mut Outs,
) -> Result<(), AllocError>
    ensures { OnOk result (outs.new ≡ outs.old ++ refused to message.now rule.now) }
{
    let code = code_of(rule);
    let datagram = match message {
        SnFrame::Register(register) => {
            let msg_id = register.msg_id;
            write_register_ack(
                alloc,
                TopicAck {
                    topic_id: 0,
                    msg_id,
                    code,
                },
            )?
        }
        SnFrame::Publish(publish) => {
            let topic_id = publish.topic_id;
            let msg_id = publish.msg_id;
            write_publish_ack(
                alloc,
                TopicAck {
                    topic_id,
                    msg_id,
                    code,
                },
            )?
        }
        SnFrame::Subscribe(request) => {
            let flags = no_flags();
            let msg_id = request.msg_id;
            write_subscribe_ack(
                alloc,
                SubscribeAck {
                    flags,
                    topic_id: 0,
                    msg_id,
                    code,
                },
            )?
        }
        SnFrame::Unsubscribe(request) => write_unsubscribe_ack(alloc, request.msg_id)?,
        SnFrame::WillTopicUpdate(_) => write_will_topic_response(alloc, code)?,
        SnFrame::WillMessageUpdate(_) => write_will_message_response(alloc, code)?,
        SnFrame::Connect(_) => return Ok(()),
        SnFrame::ConnectAck(_) => return Ok(()),
        SnFrame::WillTopicRequest => return Ok(()),
        SnFrame::WillTopic(_) => return Ok(()),
        SnFrame::WillMessageRequest => return Ok(()),
        SnFrame::WillMessage(_) => return Ok(()),
        SnFrame::RegisterAck(_) => return Ok(()),
        SnFrame::PublishAck(_) => return Ok(()),
        SnFrame::PublishComplete(_) => return Ok(()),
        SnFrame::PublishReceived(_) => return Ok(()),
        SnFrame::PublishRelease(_) => return Ok(()),
        SnFrame::SubscribeAck(_) => return Ok(()),
        SnFrame::UnsubscribeAck(_) => return Ok(()),
        SnFrame::PingRequest(_) => return Ok(()),
        SnFrame::PingResponse => return Ok(()),
        SnFrame::Disconnect(_) => return Ok(()),
        SnFrame::WillTopicResponse(_) => return Ok(()),
        SnFrame::WillMessageResponse(_) => return Ok(()),
    };
    outs.push(Out::Send(to, datagram))?;
    Ok(())
}

/// No flag is set.
pub fn no_flags() -> Flags
    ensures { result ≡ no_flags }
{
    Flags {
        dup: false,
        qos: FrameQos::AtMostOnce,
        retain: false,
        will: false,
        clean: false,
        id_type: TopicIdType::Normal,
    }
}

/// The DISCONNECT that says that no session is at the address (6.14).
pub fn dismissed(alloc: Global, to: Address) -> Result<Out, AllocError>
    ensures { IfOk result (λ out. out ≡ dismissed to) }
{
    let datagram = write_disconnect(alloc, None)?;
    Ok(Out::Send(to, datagram))
}

/// The CONNACK with this code (5.4.5).
pub fn connack(alloc: Global, to: Address, code: ReturnCode) -> Result<Out, AllocError>
    ensures { IfOk result (λ out. out ≡ connack to code) }
{
    let datagram = write_connect_ack(alloc, code)?;
    Ok(Out::Send(to, datagram))
}

/// What answers a CONNECT that is accepted: one with Will WILLTOPICREQ (5.4.6), any other CONNACK.
pub fn welcome(alloc: Global, connect: &Connect, to: Address) -> Result<Out, AllocError>
    ensures { IfOk result (λ out. out ≡ welcome connect.now to) }
{
    if connect.flags.will {
        let datagram = write_will_topic_request(alloc)?;
        Ok(Out::Send(to, datagram))
    } else {
        connack(alloc, to, ReturnCode::ACCEPTED)
    }
}

/// The WILLMSGREQ (5.4.8).
pub fn message_request(alloc: Global, to: Address) -> Result<Out, AllocError>
    ensures { IfOk result (λ out. out ≡ Out.Send to (written SnFrame.WillMessageRequest)) }
{
    let datagram = write_will_message_request(alloc)?;
    Ok(Out::Send(to, datagram))
}

/// The WILLTOPICRESP with this code (5.4.24).
pub fn topic_response(alloc: Global, to: Address, code: ReturnCode) -> Result<Out, AllocError>
    ensures { IfOk result (λ out. out ≡ Out.Send to (written (SnFrame.WillTopicResponse code))) }
{
    let datagram = write_will_topic_response(alloc, code)?;
    Ok(Out::Send(to, datagram))
}

/// The WILLMSGRESP with this code (5.4.25).
pub fn message_response(alloc: Global, to: Address, code: ReturnCode) -> Result<Out, AllocError>
    ensures { IfOk result (λ out. out ≡ Out.Send to (written (SnFrame.WillMessageResponse code))) }
{
    let datagram = write_will_message_response(alloc, code)?;
    Ok(Out::Send(to, datagram))
}

/// One out alone, for both owners.
pub fn only(alloc: Global, out: Out) -> Result<OutsPair, AllocError>
    ensures { IfOk result (λ outs. outs ≡ out ∷ []) }
{
    OutsPair::one(alloc, out)
}
