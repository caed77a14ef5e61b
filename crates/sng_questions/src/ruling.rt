//! What a policy says to a question, with what is missing where it does not allow it.
ghost use Rattle.std.specs.Prelude.{◌≡◌};
ghost use Rattle.sng_questions.specs.Answers.{publish_ruling, receive_ruling, ruling_status, source_ruling};
ghost use Rattle.sng_questions.specs.Answers.{subscribe_ruling};

use sng_policy::{FilterGrant, NameGrant};
use sng_script::Status;
use sng_text::TopicName;

/// What a policy says to a question.
#[derive(Debug, Drop)]
pub enum Ruling {
    /// It is allowed.
    Allowed,
    /// The policy does not list the client.
    NoScope,
    /// The policy does not list the source.
    UnknownSource,
    /// No pair with `pub` matches the name.
    MissingPub,
    /// No pair with `sub` matches the name.
    MissingSub,
    /// The filter matches this name, and no filter with `sub` does.
    Uncovered(TopicName),
}

/// What is said to a client that asks to publish.
pub fn publish_ruling(grant: NameGrant) -> Ruling
    ensures { result ≡ publish_ruling grant }
{
    match grant {
        NameGrant::Allowed => Ruling::Allowed,
        NameGrant::Unlisted => Ruling::NoScope,
        NameGrant::Missing => Ruling::MissingPub,
    }
}

/// What is said to a client that asks to receive.
pub fn receive_ruling(grant: NameGrant) -> Ruling
    ensures { result ≡ receive_ruling grant }
{
    match grant {
        NameGrant::Allowed => Ruling::Allowed,
        NameGrant::Unlisted => Ruling::NoScope,
        NameGrant::Missing => Ruling::MissingSub,
    }
}

/// What is said to a source that asks to publish.
pub fn source_ruling(grant: NameGrant) -> Ruling
    ensures { result ≡ source_ruling grant }
{
    match grant {
        NameGrant::Allowed => Ruling::Allowed,
        NameGrant::Unlisted => Ruling::UnknownSource,
        NameGrant::Missing => Ruling::MissingPub,
    }
}

/// What is said to a client that asks to subscribe.
pub fn subscribe_ruling(grant: FilterGrant) -> Ruling
    ensures { result ≡ subscribe_ruling grant }
{
    match grant {
        FilterGrant::Allowed => Ruling::Allowed,
        FilterGrant::Unlisted => Ruling::NoScope,
        FilterGrant::Uncovered(gap) => Ruling::Uncovered(gap),
    }
}

impl Ruling {
    /// How a command comes out with it.
    pub fn status(&self) -> Status
        ensures { result ≡ ruling_status self.now }
    {
        match self {
            Ruling::Allowed => Status::Done,
            Ruling::NoScope
            | Ruling::UnknownSource
            | Ruling::MissingPub
            | Ruling::MissingSub
            | Ruling::Uncovered(_) => Status::Denied,
        }
    }
}
