//! What is printed of a policy text whose canonical form is asked for.
ghost use Rattle.std.specs.Prelude.{◌≡◌, IfOk};
ghost use Rattle.sng_scope.specs.Policies.{policy_of};
ghost use Rattle.sng_places.specs.Places.{text_check};
ghost use Rattle.sng_places.specs.declared.position.Position.{Position};
ghost use Rattle.sng_questions.specs.Warnings.{AreWarningsOf};
ghost use Rattle.sng_questions.specs.Reports.{IsReadAgain, canonical_report, report_status};

use crate::report::{Report, refusal};
use crate::warnings::warning_lines;
use sng_scope::{PolicyFault, read_policy, write_policy};
use sng_script::Status;
use std::alloc::{AllocError, Global};

/// The canonical text of the policy that the text says, as one line, with what is surely not meant in it; of
/// a text that is refused what `report_of` says. What is printed is read as the same policy, and so prints
/// itself. Only memory can fail.
pub fn canonical_of(alloc: Global, text: &[u8]) -> Result<Report, AllocError>
    ensures lines { IfOk result (λ report. (position : Position)
        × (report.lines.items ≡ canonical_report position (policy_of text.now) (text_check text.now))) }
    ensures again { IfOk result (λ _. IsReadAgain (policy_of text.now)) }
    ensures warnings { IfOk result (λ report.
        AreWarningsOf (policy_of text.now) report.warnings.items) }
    ensures status { IfOk result (λ report. report.status ≡ report_status (policy_of text.now)) }
{
    match read_policy(alloc, text) {
        Ok(policy) => {
            let mut lines = write_policy(alloc, &policy)?;
            lines.extend_from_slice(b"\n")?;
            let warnings = warning_lines(alloc, text, &policy)?;
            Ok(Report {
                lines,
                warnings,
                status: Status::Done,
            })
        }
        Err(PolicyFault::Memory) => Err(AllocError),
        Err(fault) => refusal(alloc, text, fault),
    }
}
