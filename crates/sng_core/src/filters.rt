//! The filter that a SUBSCRIBE or an UNSUBSCRIBE names, and how such an ask comes out (MQTT-SN 1.2, 5.4.15,
//! 5.4.17 and 6.9).
ghost use Rattle.std.specs.Prelude.{◌≡◌, Some, None, Ok, Err, IfOk, if◌then◌else◌};
ghost use Rattle.sng_text.specs.Texts.{is_name};
ghost use Rattle.sng_policy.specs.Grants.{topic};
ghost use Rattle.sng_history.specs.Requests.{granted, gets_id};
ghost use Rattle.sng_history.specs.Verdicts.{as_filter, predefined_filter, filter_in};
ghost use Rattle.sng_core.specs.Subscribing.{unread_filter};

use sng_book::{Denial, FormDenial, IdKind, Outcome};
use sng_frames::{FrameQos, TopicIdType, TopicRequest};
use sng_policy::InForce;
use sng_text::{Qos, TextFault, TopicFilter, TopicName};
use sng_turns::known::id_in;
use std::alloc::{AllocError, Global};

/// How an ask about a filter came out, and the filter that was read, where one was.
#[derive(Debug, Drop)]
pub struct JudgedFilter {
    pub filter: Option<TopicFilter>,
    pub outcome: Outcome,
}

/// An ask that is denied before a filter was read.
pub fn unread_filter(rule: Denial) -> JudgedFilter
    ensures { result ≡ unread_filter rule }
{
    JudgedFilter {
        filter: None,
        outcome: Outcome::Denied(rule),
    }
}

/// An equal filter, where there is one, in memory of its own.
pub fn copy_filter(filter: &Option<TopicFilter>) -> Result<Option<TopicFilter>, AllocError>
    ensures { IfOk result (λ copied. copied ≡ filter.now) }
{
    match filter {
        Some(filter) => Ok(Some(filter.copy()?)),
        None => Ok(None),
    }
}

/// The filter that the request names, or the rule that it breaks. The outer `Err` is a failed allocation.
pub fn filter_read(
    alloc: Global,
    policy: &InForce,
    request: &TopicRequest,
) -> Result<Result<TopicFilter, Denial>, AllocError>
    ensures { IfOk result (λ named. named
        ≡ filter_in policy.now request.now.flags.id_type request.now.topic) }
{
    let topic = request.topic.as_slice();
    match request.flags.id_type {
        TopicIdType::Normal => as_filter(alloc, topic),
        TopicIdType::Short => short_filter(alloc, topic),
        TopicIdType::Predefined => predefined_filter(alloc, policy, id_in(topic)),
        TopicIdType::Reserved => Ok(Err(Denial::Form(FormDenial::IdType))),
    }
}

/// A text as a filter.
fn as_filter(alloc: Global, text: &[u8]) -> Result<Result<TopicFilter, Denial>, AllocError>
    ensures { IfOk result (λ named. named ≡ as_filter text.now) }
{
    match TopicFilter::read(alloc, text) {
        Ok(filter) => Ok(Ok(filter)),
        Err(TextFault::Memory) => Err(AllocError),
        Err(_) => Ok(Err(Denial::Form(FormDenial::BadFilter))),
    }
}

/// A short name as a filter.
fn short_filter(alloc: Global, text: &[u8]) -> Result<Result<TopicFilter, Denial>, AllocError>
    ensures { IfOk result (λ named. named
        ≡ (if is_name text.now then as_filter text.now else Err (Denial.Form FormDenial.BadName))) }
{
    match TopicName::read(alloc, text) {
        Ok(_) => as_filter(alloc, text),
        Err(TextFault::Memory) => Err(AllocError),
        Err(_) => Ok(Err(Denial::Form(FormDenial::BadName))),
    }
}

/// The name of a predefined id as a filter.
fn predefined_filter(
    alloc: Global,
    policy: &InForce,
    id: u16,
) -> Result<Result<TopicFilter, Denial>, AllocError>
    ensures { IfOk result (λ named. named ≡ predefined_filter id (topic policy.now id)) }
{
    match policy.topic(id) {
        Some(name) => as_filter(alloc, name.text()),
        None => Ok(Err(Denial::Form(FormDenial::UnknownId(IdKind::Predefined, id)))),
    }
}

/// The QoS at which a subscription is granted.
pub fn granted(qos: FrameQos) -> Qos
    ensures { result ≡ granted qos }
{
    match qos {
        FrameQos::AtMostOnce => Qos::AtMostOnce,
        FrameQos::AtLeastOnce => Qos::AtLeastOnce,
        FrameQos::ExactlyOnce => Qos::AtLeastOnce,
        FrameQos::WithoutSession => Qos::AtMostOnce,
    }
}

/// Whether the filter is a name that gets a topic id.
pub fn gets_id(id_type: TopicIdType, filter: &TopicFilter) -> bool
    ensures { result ≡ gets_id id_type filter.now }
{
    match id_type {
        TopicIdType::Normal => filter.is_name() && filter.text().len() != 2,
        TopicIdType::Predefined => false,
        TopicIdType::Short => false,
        TopicIdType::Reserved => false,
    }
}

/// The name that the client is told an id of, where the filter gets one.
pub fn name_told(
    alloc: Global,
    id_type: TopicIdType,
    filter: &TopicFilter,
) -> Result<Option<TopicName>, AllocError>
    ensures { IfOk result (λ name. name ≡ (if gets_id id_type filter.now then Some filter.now else None)) }
{
    if !gets_id(id_type, filter) {
        return Ok(None);
    }
    match TopicName::read(alloc, filter.text()) {
        Ok(name) => Ok(Some(name)),
        Err(TextFault::Memory) => Err(AllocError),
        Err(_) => unreachable!(),
    }
}
