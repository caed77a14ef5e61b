//! The lines of a page, in the text format of Prometheus, 0.0.4.
ghost use Rattle.std.specs.Prelude.{◌≡◌, ◌+◌, ◌<◌, ◌++◌, OnOk};
ghost use Rattle.sng_metrics.specs.Metrics.{name_of};
ghost use Rattle.sng_metrics.specs.Pages.{digit, escaped, escaped_byte, family_text, label_text, labels_text};
ghost use Rattle.sng_metrics.specs.Pages.{more_labels, pair, pairs, plain, sample_text, thousandths};
ghost use Rattle.sng_metrics.specs.Pages.{title_text, value_text};

use crate::metric::Metric;
use crate::number::push_number;
use std::alloc::AllocError;

/// A label of a sample.
#[derive(Clone, Copy, Debug)]
pub(crate) struct Label<'a> {
    pub name: &'a str,
    pub value: &'a str,
}

/// The value of a sample.
#[derive(Clone, Copy, Debug)]
pub(crate) enum Value {
    Whole(u128),
    /// So many thousandths.
    Millis(u64),
}

/// Appends a family of one sample without labels.
#[tactic(auto, unfolding(crate::specs::Pages::family_text, crate::specs::Pages::labels_text))]
pub(crate) fn push_plain(text: &mut Vec<u8>, metric: Metric, value: Value) -> Result<(), AllocError>
    ensures { OnOk result (text.new.items ≡ text.old.items ++ family_text (plain metric value)) }
{
    push_title(text, metric)?;
    push_sample(text, metric, &[], value)
}

/// Appends what stands before the samples of a family: its help text and its type.
#[tactic(auto, unfolding(crate::specs::Pages::title_text))]
pub(crate) fn push_title(text: &mut Vec<u8>, metric: Metric) -> Result<(), AllocError>
    ensures { OnOk result (text.new.items ≡ text.old.items ++ title_text metric) }
{
    let name = metric.name().as_bytes();
    push_three(text, b"# HELP ", name, b" ")?;
    push_three(text, metric.help().as_bytes(), b"\n# TYPE ", name)?;
    push_three(text, b" ", metric.kind().word().as_bytes(), b"\n")
}

/// Appends three texts, one behind the other.
pub(crate) fn push_three(
    text: &mut Vec<u8>,
    first: &[u8],
    second: &[u8],
    third: &[u8],
) -> Result<(), AllocError>
    ensures { OnOk result (text.new.items ≡ text.old.items ++ (first.now ++ (second.now ++ third.now))) }
{
    text.extend_from_slice(first)?;
    text.extend_from_slice(second)?;
    text.extend_from_slice(third)
}

/// Appends the line of a sample.
#[tactic(auto, unfolding(crate::specs::Pages::sample_text))]
pub(crate) fn push_sample(
    text: &mut Vec<u8>,
    metric: Metric,
    labels: &[Label<'_>],
    value: Value,
) -> Result<(), AllocError>
    ensures { OnOk result (text.new.items ≡ text.old.items
        ++ sample_text (name_of metric) record { labels = pairs labels.now; value = value }) }
{
    text.extend_from_slice(metric.name().as_bytes())?;
    push_labels(text, labels)?;
    text.extend_from_slice(b" ")?;
    push_value(text, value)?;
    text.extend_from_slice(b"\n")
}

/// Appends the labels between braces, where there are any.
#[tactic(auto, unfolding(crate::specs::Pages::labels_text))]
fn push_labels(text: &mut Vec<u8>, labels: &[Label<'_>]) -> Result<(), AllocError>
    ensures { OnOk result (text.new.items ≡ text.old.items ++ labels_text (pairs labels.now)) }
{
    match labels {
        [] => Ok(()),
        [first, more @ ..] => {
            text.extend_from_slice(b"{")?;
            push_label(text, *first)?;
            push_more_labels(text, more)?;
            text.extend_from_slice(b"}")
        }
    }
}

/// Appends labels behind another one.
fn push_more_labels(text: &mut Vec<u8>, labels: &[Label<'_>]) -> Result<(), AllocError>
    ensures { OnOk result (text.new.items ≡ text.old.items ++ more_labels (pairs labels.now)) }
{
    for label in labels {
        text.extend_from_slice(b",")?;
        push_label(text, *label)?;
    }
    Ok(())
}

fn push_label(text: &mut Vec<u8>, label: Label<'_>) -> Result<(), AllocError>
    ensures { OnOk result (text.new.items ≡ text.old.items ++ label_text (pair label.entry)) }
{
    text.extend_from_slice(label.name.as_bytes())?;
    text.extend_from_slice(b"=\"")?;
    push_escaped(text, label.value.as_bytes())?;
    text.extend_from_slice(b"\"")
}

/// Appends the value of a label.
fn push_escaped(text: &mut Vec<u8>, value: &[u8]) -> Result<(), AllocError>
    ensures { OnOk result (text.new.items ≡ text.old.items ++ escaped value.now) }
{
    for byte in value {
        push_escaped_byte(text, *byte)?;
    }
    Ok(())
}

fn push_escaped_byte(text: &mut Vec<u8>, byte: u8) -> Result<(), AllocError>
    ensures { OnOk result (text.new.items ≡ text.old.items ++ escaped_byte byte) }
{
    if byte == b'\\' {
        text.extend_from_slice(b"\\\\")
    } else if byte == b'"' {
        text.extend_from_slice(b"\\\"")
    } else if byte == b'\n' {
        text.extend_from_slice(b"\\n")
    } else {
        text.extend_from_slice(&[byte])
    }
}

fn push_value(text: &mut Vec<u8>, value: Value) -> Result<(), AllocError>
    ensures { OnOk result (text.new.items ≡ text.old.items ++ value_text value) }
{
    match value {
        Value::Whole(number) => push_number(text, number),
        Value::Millis(millis) => {
            push_number(text, u128::from(millis / 1000))?;
            text.extend_from_slice(b".")?;
            push_thousandths(text, millis)
        }
    }
}

/// Appends the last three digits.
fn push_thousandths(text: &mut Vec<u8>, number: u64) -> Result<(), AllocError>
    ensures { OnOk result (text.new.items ≡ text.old.items ++ thousandths number) }
{
    text.extend_from_slice(&[
        digit(number / 100 % 10),
        digit(number / 10 % 10),
        digit(number % 10),
    ])
}

fn digit(number: u64) -> u8
    requires { number < 10 }
    ensures { result ≡ 48 + number }
{
    b'0' + number as u8
}
