//! How what a client states of its will is judged (MQTT-SN 1.2, 5.4.7, 5.4.9, 5.4.22, 5.4.23, 6.3 and 6.4):
//! its turn, then its scope, its topic, and the grant of that topic. To delete a will needs no grant.
ghost use Rattle.std.specs.Prelude.{◌≡◌, ◌<◌, length, IfOk};
ghost use Rattle.std.specs.Prelude.{true};
ghost use Rattle.std.specs.Option.{option_copied, option_map};
ghost use Rattle.sng_text.specs.Texts.{is_name};
ghost use Rattle.sng_wills.specs.Stated.{awaited_topic};
ghost use Rattle.sng_history.specs.Clients.{topic_stated};
ghost use Rattle.sng_history.specs.WillAsks.{awaits_topic};
ghost use Rattle.sng_core.specs.Forms.{client_at};
ghost use Rattle.sng_core.specs.Stating.{said, stating_of, IsRead, has_turn, granted_nothing, text_judged};
ghost use Rattle.sng_core.specs.Stating.{statement_judged, topic_judged};

use crate::filters::granted;
use crate::verdict::{Judged, unread};
use sng_book::{Denial, FormDenial, GrantDenial, Outcome};
use sng_frames::WillTopic;
use sng_history::exit;
use sng_outbox::Origin;
use sng_policy::InForce;
use sng_sessions::{Sessions, Stating};
use sng_text::{ClientId, Octets, TextFault, TopicName};
use sng_wills::{Stage, StatedTopic};
use std::alloc::{AllocError, Global};

/// What a client states of its will.
#[derive(Debug, Drop)]
pub enum Statement {
    /// In the dialogue behind a CONNECT: a WILLTOPIC, where it has none to delete the will.
    Topic(Option<WillTopic>),
    /// In the dialogue: a WILLMSG.
    Message(Octets),
    /// Later: a WILLTOPICUPD, where it has no topic to delete the will.
    TopicUpdate(Option<WillTopic>),
    /// Later: a WILLMSGUPD.
    MessageUpdate(Octets),
}

/// Whether the statement of the client at this place has its turn: a WILLTOPIC and a WILLMSG where the
/// dialogue awaits them, and the updates where the client is active; a WILLMSGUPD needs a will besides.
pub fn has_turn(sessions: &Sessions, place: usize, statement: &Statement) -> bool
    requires { place < length sessions.now }
    ensures { result ≡ has_turn (said statement.now) (client_at sessions.now place) }
{
    let wills = sessions.wills(place);
    match statement {
        Statement::Topic(_) => awaits_topic(wills.stage()),
        Statement::Message(_) => awaited_topic(wills.stage()).is_some(),
        Statement::TopicUpdate(_) => sessions.phase(place).is_active(),
        Statement::MessageUpdate(_) => sessions.phase(place).is_active() && wills.will().is_some(),
    }
}

/// Whether the dialogue awaits a WILLTOPIC.
fn awaits_topic(stage: &Stage) -> bool
    ensures { result ≡ awaits_topic stage.now }
{
    match stage {
        Stage::TopicAwaited => true,
        Stage::Closed => false,
        Stage::MessageAwaited(_) => false,
    }
}

/// The topic of which the dialogue awaits the message.
fn awaited_topic(stage: &Stage) -> Option<&StatedTopic>
    ensures { option_copied result ≡ awaited_topic stage.now }
{
    match stage {
        Stage::MessageAwaited(stated) => Some(stated),
        Stage::Closed => None,
        Stage::TopicAwaited => None,
    }
}

/// How the statement of the client at this place comes out, which has its turn, and the topic that was read.
/// An `Err` is a failed allocation.
pub fn judged(
    alloc: Global,
    policy: &InForce,
    sessions: &Sessions,
    place: usize,
    statement: &Statement,
) -> Result<Judged, AllocError>
    requires { place < length sessions.now }
    ensures { IfOk result (λ j. j
        ≡ statement_judged policy.now (said statement.now) (client_at sessions.now place)) }
{
    let client = sessions.id(place);
    let wills = sessions.wills(place);
    match statement {
        Statement::Topic(topic) => judged_topic(alloc, policy, client, topic),
        Statement::TopicUpdate(topic) => judged_topic(alloc, policy, client, topic),
        Statement::Message(_) => match awaited_topic(wills.stage()) {
            Some(stated) => judged_text(alloc, policy, client, stated.topic.text()),
            None => Ok(granted_nothing()),
        },
        Statement::MessageUpdate(_) => match wills.will() {
            Some(will) => judged_text(alloc, policy, client, will.topic.text()),
            None => Ok(granted_nothing()),
        },
    }
}

/// By the topic that it states; to delete the will needs no grant.
fn judged_topic(
    alloc: Global,
    policy: &InForce,
    client: &ClientId,
    topic: &Option<WillTopic>,
) -> Result<Judged, AllocError>
    ensures { IfOk result (λ j. j
        ≡ topic_judged policy.now client.now (option_map (λ w. w.topic) topic.now)) }
{
    match topic {
        Some(will) => judged_text(alloc, policy, client, will.topic.as_slice()),
        None => Ok(granted_nothing()),
    }
}

/// No grant is needed.
fn granted_nothing() -> Judged
    ensures { result ≡ granted_nothing }
{
    Judged {
        name: None,
        outcome: Outcome::Allowed,
    }
}

/// By the text of its topic: the policy lists the client, the text is a topic name, and the client may
/// publish under it.
fn judged_text(
    alloc: Global,
    policy: &InForce,
    client: &ClientId,
    text: &[u8],
) -> Result<Judged, AllocError>
    ensures { IfOk result (λ j. j ≡ text_judged policy.now client.now text.now) }
{
    if !policy.lists(client) {
        let denial = GrantDenial::NoScope(client.copy()?);
        return Ok(unread(Denial::ungranted(alloc, denial)?));
    }
    match TopicName::read(alloc, text) {
        Ok(name) => {
            let origin = Origin::Client(client.copy()?);
            let outcome = exit(alloc, policy, &origin, &name)?;
            Ok(Judged {
                name: Some(name),
                outcome,
            })
        }
        Err(TextFault::Memory) => Err(AllocError),
        Err(_) => Ok(unread(Denial::Form(FormDenial::BadName))),
    }
}

/// What a statement that is allowed does to its client. Takes no memory.
pub fn stating(statement: Statement) -> Stating
    requires { IsRead (said statement) }
    ensures { result ≡ stating_of (said statement) }
{
    match statement {
        Statement::Topic(None) => Stating::NoWill,
        Statement::Topic(Some(will)) => Stating::Topic(stated_topic(will)),
        Statement::Message(message) => Stating::Message(message),
        Statement::TopicUpdate(None) => Stating::Deletion,
        Statement::TopicUpdate(Some(will)) => Stating::NewTopic(stated_topic(will)),
        Statement::MessageUpdate(message) => Stating::NewMessage(message),
    }
}

/// The topic, with its QoS and Retain; QoS 2 is kept as 1.
fn stated_topic(will: WillTopic) -> StatedTopic
    requires { is_name will.topic ≡ true }
    ensures { result ≡ topic_stated will }
{
    let WillTopic { flags, topic } = will;
    StatedTopic {
        topic: TopicName::of_text(topic),
        qos: granted(flags.qos),
        retain: flags.retain,
    }
}
