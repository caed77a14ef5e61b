//! The page of figures, in the text format of Prometheus, 0.0.4.
ghost use Rattle.std.specs.Prelude.{◌≡◌, ◌++◌, IfOk, OnOk};
ghost use Rattle.sng_metrics.specs.Figures.{count_families, families_of, metrics_text, state_families};
ghost use Rattle.sng_metrics.specs.Pages.{page_text};

use crate::answer::answer;
use crate::counts::{push_changes, push_decisions, push_rows, push_traffic};
use crate::figures::Figures;
use crate::gauges::{push_clients, push_faults, push_health, push_program, push_waiting};
use crate::heard::Form;
use crate::status::{Media, Status};
use sng_tally::Tally;
use std::alloc::{AllocError, Global};

/// The answer to a request for the figures: their page.
pub fn metrics_answer(
    alloc: Global,
    form: Form,
    tally: &Tally,
    figures: &Figures<'_>,
) -> Result<Vec<u8>, AllocError>
    ensures { IfOk result (λ answer. answer.items ≡ metrics_text form tally.now figures.now) }
{
    let mut page = Vec::new(alloc);
    push_page(&mut page, tally, figures)?;
    answer(alloc, Status::Ok, Media::Figures, form, page.as_slice())
}

/// Appends the page.
pub fn push_page(text: &mut Vec<u8>, tally: &Tally, figures: &Figures<'_>) -> Result<(), AllocError>
    ensures { OnOk result (text.new.items
        ≡ text.old.items ++ page_text (families_of tally.now figures.now)) }
{
    push_state(text, figures)?;
    push_counts(text, tally)?;
    push_faults(text, figures)
}

/// Appends what is so now.
fn push_state(text: &mut Vec<u8>, figures: &Figures<'_>) -> Result<(), AllocError>
    ensures { OnOk result (text.new.items ≡ text.old.items ++ page_text (state_families figures.now)) }
{
    push_program(text, figures)?;
    push_health(text, figures.health)?;
    push_clients(text, &figures.clients)?;
    push_waiting(text, figures)
}

/// Appends what is counted of rows.
fn push_counts(text: &mut Vec<u8>, tally: &Tally) -> Result<(), AllocError>
    ensures { OnOk result (text.new.items ≡ text.old.items ++ page_text (count_families tally.now)) }
{
    push_rows(text, tally)?;
    push_decisions(text, tally)?;
    push_traffic(text, tally)?;
    push_changes(text, tally)
}
