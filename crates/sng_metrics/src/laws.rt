//! What is right of the definitions. Each function states one law: its contract is the law, and calling it does
//! nothing.
ghost use Rattle.std.specs.Prelude.{◌≡◌};
ghost use Rattle.sng_metrics.specs.Laws.{AnswersAreHttp, EveryDecisionIsTold};
ghost use Rattle.sng_metrics.specs.declared.limits.TheConstants.{MAX_FIELDS, MAX_REQUEST};

use crate::{MAX_FIELDS, MAX_REQUEST};

/// However a decision came out, the page has a sample that counts it.
pub fn every_decision_is_told()
    ensures { EveryDecisionIsTold }
{}

/// Each answer is one of HTTP/1.1, by the grammar by which heads are read, with the code of its status and the
/// length of its content.
pub fn answers_are_http()
    ensures { AnswersAreHttp }
{}

/// The limits: the octets of a request's head, and its field lines.
pub fn limits()
    ensures octets { MAX_REQUEST ≡ 8192 }
    ensures fields { MAX_FIELDS ≡ 64 }
{}
