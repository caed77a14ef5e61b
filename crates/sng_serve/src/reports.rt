//! What an operator is told of a policy text: the faults and the warnings of `sng policy`.

use crate::hub::Hub;
use sng_questions::report::report_of;
use sng_script::Status;
use sng_signals::level::Level;
use std::alloc::AllocError;
use std::str;

/// So many lines are told of one text at most.
const MOST_LINES: usize = 20;

/// What a warning of a report begins with, which the level of its line says, too.
const WARNING: &str = "warning: ";

/// Tells the warnings of a text that is accepted, and of any other what its first fault is and where it
/// stands.
pub fn tell_report<R: AllocGlobal>(rt: &R, hub: &Hub, text: &[u8]) {
    match report_of(rt.alloc(), text) {
        Ok(report) => match report.status {
            Status::Done => tell_lines(hub, Level::Warning, report.warnings.as_slice(), 0),
            // the first line is the fault by its name, which is told anyway
            _ => tell_lines(hub, Level::Error, report.lines.as_slice(), 1),
        },
        Err(AllocError) => hub.tell(
            Level::Warning,
            "more of this policy is not told: allocation failed",
        ),
    }
}

/// Tells the lines behind so many, up to a bound, and how many more there are.
fn tell_lines(hub: &Hub, level: Level, lines: &[u8], passed_over: usize) {
    let Ok(lines) = str::from_utf8(lines) else {
        return;
    };
    for line in lines.lines().skip(passed_over).take(MOST_LINES) {
        hub.tell(level, line.strip_prefix(WARNING).unwrap_or(line));
    }
    let more = lines
        .lines()
        .skip(passed_over)
        .count()
        .saturating_sub(MOST_LINES);
    if more > 0 {
        hub.tell(
            level,
            format_args!("{more} lines more: `sng policy` shows all"),
        );
    }
}
