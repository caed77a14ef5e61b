//! Figures, read off a page of the text format of Prometheus, 0.0.4.
ghost use Rattle.std.specs.Prelude.{◌≡◌, ◌==◌, IfOk, option_copied};
ghost use Rattle.std.specs.List.{slice_split};
ghost use Rattle.sng_metrics.specs.Readings.{figure_in, label_in, past, past_front, plus, summed, texts};
ghost use Rattle.sng_metrics.specs.Readings.{value_part};

use crate::metric::Metric;
use crate::number::number_of;
use crate::request::place_of;
use crate::summary::SummaryFault;
use std::alloc::{AllocError, Global};

/// What the lines so far come to.
#[derive(Clone, Copy, Debug, PartialEq, Eq)]
pub(crate) enum Sum {
    /// No line has the figure.
    Nothing,
    /// The sum of its samples.
    Number(u64),
    /// A sample is no whole number, or the sum is too large.
    Unreadable,
}

/// The lines of a page.
pub(crate) fn lines_of(alloc: Global, page: &[u8]) -> Result<Vec<&[u8]>, AllocError>
    ensures { IfOk result (λ lines. texts lines.items ≡ slice_split (λ b. b == 10) page.now) }
{
    page.split(|b| *b == b'\n').collect(alloc)
}

/// The sum of the samples of the family whose lines go on so behind its name: with a space where it has no
/// labels, with the first of them, or with all of them and a space.
pub(crate) fn figure_in(lines: &[&[u8]], metric: Metric, labels: &str) -> Result<u64, SummaryFault>
    ensures { result ≡ figure_in (texts lines.now) metric labels.now }
{
    let mut sum = Sum::Nothing;
    for line in lines {
        sum = summed(sum, line, metric.name(), labels);
    }
    match sum {
        Sum::Nothing => Err(SummaryFault::Missing(metric)),
        Sum::Number(number) => Ok(number),
        Sum::Unreadable => Err(SummaryFault::Unreadable(metric)),
    }
}

/// The sum with one line more.
fn summed(sum: Sum, line: &[u8], name: &str, labels: &str) -> Sum
    ensures { result ≡ summed sum line.now name.now labels.now }
{
    match past_front(line, name, labels) {
        Some(_) => plus(sum, number_of(value_part(line))),
        None => sum,
    }
}

/// The sum with one sample more.
fn plus(sum: Sum, number: Option<u64>) -> Sum
    ensures { result ≡ plus sum number }
{
    match (sum, number) {
        (Sum::Nothing, Some(number)) => Sum::Number(number),
        (Sum::Number(sum), Some(number)) => match sum.checked_add(number) {
            Some(sum) => Sum::Number(sum),
            None => Sum::Unreadable,
        },
        (Sum::Unreadable, _) | (_, None) => Sum::Unreadable,
    }
}

/// What stands behind the name and what follows it, where the line begins with both.
fn past_front<'a>(line: &'a [u8], name: &str, labels: &str) -> Option<&'a [u8]>
    ensures { option_copied result ≡ past_front line.now name.now labels.now }
{
    let rest = past(line, name.as_bytes())?;
    past(rest, labels.as_bytes())
}

/// What stands behind the front, where the text begins with it.
fn past<'a>(text: &'a [u8], front: &[u8]) -> Option<&'a [u8]>
    ensures { option_copied result ≡ past text.now front.now }
{
    match text.strip_prefix(front) {
        Some(rest) => Some(rest),
        None => None,
    }
}

/// What stands behind the first space.
fn value_part(line: &[u8]) -> &[u8]
    ensures { result.now ≡ value_part line.now }
{
    let at = place_of(b' ', line);
    if at < line.len() {
        &line[at + 1..]
    } else {
        &[]
    }
}

/// The value of the first label in the first line that begins so.
pub(crate) fn label_in<'a>(lines: &[&'a [u8]], name: &str, labels: &str) -> Option<&'a [u8]>
    ensures { option_copied result ≡ label_in (texts lines.now) name.now labels.now }
{
    for line in lines {
        if let Some(rest) = past_front(line, name, labels) {
            return Some(&rest[..place_of(b'"', rest)]);
        }
    }
    None
}
