//! Questions to a policy, read from words.
ghost use Rattle.std.specs.Prelude.{◌≡◌, ◌⊎◌, Ok, Err, IfOk, IfErr};
ghost use Rattle.sng_questions.specs.Inquiries.{action_of, client_inquiry, source_inquiry, client_of};
ghost use Rattle.sng_questions.specs.Inquiries.{name_of, filter_of};

use sng_text::{ClientId, TextFault, TopicFilter, TopicName, read_ipv4};
use std::alloc::Global;

/// What is asked of a policy.
#[derive(Debug, Drop)]
pub enum Inquiry {
    /// May the client publish under the name?
    Publish(ClientId, TopicName),
    /// May the client receive a message with the name?
    Receive(ClientId, TopicName),
    /// May the client subscribe by the filter?
    Subscribe(ClientId, TopicFilter),
    /// May the source with this IPv4 address publish under the name?
    SourcePublish([u8; 4], TopicName),
}

/// What is wrong with words that are not a question.
#[derive(Clone, Copy, Debug, PartialEq, Eq)]
pub enum InquiryFault {
    /// The action is none that may be asked for.
    Action,
    /// The client is not a client id.
    Client,
    /// The source is not an IPv4 address.
    Source,
    /// What is published or received is not a topic name.
    Name,
    /// What is subscribed by is not a topic filter.
    Filter,
    /// Allocation failed.
    Memory,
}

/// What may be asked for.
#[derive(Clone, Copy, Debug, PartialEq, Eq)]
enum Action {
    Publish,
    Receive,
    Subscribe,
}

/// The question that a client's words are, or the first of them that is at fault: the action, the client,
/// then what is published, received or subscribed by.
pub fn client_inquiry(
    alloc: Global,
    client: &[u8],
    action: &[u8],
    object: &[u8],
) -> Result<Inquiry, InquiryFault>
    ensures ok { IfOk result (λ inquiry. client_inquiry client.now action.now object.now ≡ Ok inquiry) }
    ensures err { IfErr result (λ e. (e ≡ InquiryFault.Memory)
        ⊎ (client_inquiry client.now action.now object.now ≡ Err e)) }
{
    let action = action_of(action)?;
    let client = client_of(alloc, client)?;
    match action {
        Action::Publish => Ok(Inquiry::Publish(client, name_of(alloc, object)?)),
        Action::Receive => Ok(Inquiry::Receive(client, name_of(alloc, object)?)),
        Action::Subscribe => Ok(Inquiry::Subscribe(client, filter_of(alloc, object)?)),
    }
}

/// The question that a source's words are, or the first of them that is at fault: the action, which is
/// `publish` alone, the source, then the name.
pub fn source_inquiry(
    alloc: Global,
    source: &[u8],
    action: &[u8],
    name: &[u8],
) -> Result<Inquiry, InquiryFault>
    ensures ok { IfOk result (λ inquiry. source_inquiry source.now action.now name.now ≡ Ok inquiry) }
    ensures err { IfErr result (λ e. (e ≡ InquiryFault.Memory)
        ⊎ (source_inquiry source.now action.now name.now ≡ Err e)) }
{
    match action_of(action)? {
        Action::Publish => {
            let Some(source) = read_ipv4(source) else {
                return Err(InquiryFault::Source);
            };
            Ok(Inquiry::SourcePublish(source, name_of(alloc, name)?))
        }
        Action::Receive | Action::Subscribe => Err(InquiryFault::Action),
    }
}

fn action_of(word: &[u8]) -> Result<Action, InquiryFault>
    ensures { result ≡ action_of word.now }
{
    if word == b"publish".as_slice() {
        Ok(Action::Publish)
    } else if word == b"receive".as_slice() {
        Ok(Action::Receive)
    } else if word == b"subscribe".as_slice() {
        Ok(Action::Subscribe)
    } else {
        Err(InquiryFault::Action)
    }
}

fn client_of(alloc: Global, text: &[u8]) -> Result<ClientId, InquiryFault>
    ensures ok { IfOk result (λ i. client_of text.now ≡ Ok i) }
    ensures err { IfErr result (λ e. (e ≡ InquiryFault.Memory) ⊎ (client_of text.now ≡ Err e)) }
{
    match ClientId::read(alloc, text) {
        Ok(client) => Ok(client),
        Err(TextFault::Memory) => Err(InquiryFault::Memory),
        Err(_) => Err(InquiryFault::Client),
    }
}

fn name_of(alloc: Global, text: &[u8]) -> Result<TopicName, InquiryFault>
    ensures ok { IfOk result (λ n. name_of text.now ≡ Ok n) }
    ensures err { IfErr result (λ e. (e ≡ InquiryFault.Memory) ⊎ (name_of text.now ≡ Err e)) }
{
    match TopicName::read(alloc, text) {
        Ok(name) => Ok(name),
        Err(TextFault::Memory) => Err(InquiryFault::Memory),
        Err(_) => Err(InquiryFault::Name),
    }
}

fn filter_of(alloc: Global, text: &[u8]) -> Result<TopicFilter, InquiryFault>
    ensures ok { IfOk result (λ f. filter_of text.now ≡ Ok f) }
    ensures err { IfErr result (λ e. (e ≡ InquiryFault.Memory) ⊎ (filter_of text.now ≡ Err e)) }
{
    match TopicFilter::read(alloc, text) {
        Ok(filter) => Ok(filter),
        Err(TextFault::Memory) => Err(InquiryFault::Memory),
        Err(_) => Err(InquiryFault::Filter),
    }
}
