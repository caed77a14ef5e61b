//! The text of the policy in force, so that one that changes nothing makes no row.
ghost use Rattle.std.specs.Prelude.{◌≡◌, None};
ghost use Rattle.sng_operator.specs.Texts.{in_force_after, lists_of, is_text};

use crate::lists::Lists;
use sng_text::Octets;
use std::alloc::{AllocError, Global};

/// A policy that was given, and of whose act nothing is known yet.
#[derive(Drop)]
pub struct Proposal {
    /// Its text, where there was memory to keep it.
    pub text: Option<Octets>,
    pub lists: Lists,
}

/// The text in force, as far as it is known, and what was given last.
#[derive(Drop)]
pub struct InForce {
    pub text: Option<Octets>,
    pub proposal: Option<Proposal>,
}

impl InForce {
    /// This text is in force.
    pub fn new(text: Option<Octets>) -> InForce
        ensures text { result.text ≡ text }
        ensures proposal { result.proposal ≡ None }
    {
        InForce {
            text,
            proposal: None,
        }
    }

    /// Whether this text is known to be in force, byte for byte.
    pub fn is(&self, text: &[u8]) -> bool
        ensures { result ≡ is_text self.now.text text.now }
    {
        match &self.text {
            Some(known) => known.as_slice() == text,
            None => false,
        }
    }

    /// A policy with this text was given. Where there is no memory for the text, it is forgotten.
    pub fn propose(&mut self, alloc: Global, text: &[u8], lists: Lists) {
        let text = match Vec::from_slice(alloc, text) {
            Ok(text) => Some(Octets::from(text)),
            Err(AllocError) => None,
        };
        self.proposal = Some(Proposal { text, lists });
    }

    /// What was given came into force, or was refused: then the one before stays. How much it lists.
    pub fn settle(&mut self, is_refused: bool) -> Option<Lists>
        ensures text { self.new.text ≡ in_force_after is_refused self.old }
        ensures proposal { self.new.proposal ≡ None }
        ensures lists { result ≡ lists_of self.old.proposal }
    {
        let Proposal { text, lists } = self.proposal.take()?;
        if !is_refused {
            self.text = text;
        }
        Some(lists)
    }
}
