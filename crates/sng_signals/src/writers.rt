//! The threads that write to standard output and standard error. They own what they use, so that a stream
//! that takes nothing any more does not keep the program from ending: it cuts them off.

use crate::bell::Ear;
use crate::board::Board;
use crate::clock::{is_past, seconds, time_after};
use crate::level::Level;
use crate::stamp::stamp;
use std::alloc::{AllocError, Global};
use std::rt::Clock;
use std::sync::{Arc, Wait};
use std::thread;
use std::thread::Threads;
use std::time::Duration;

/// How long one wait for texts is, in ms: another one follows it.
const LONGEST_WAIT_MS: u64 = 60000;

/// After which time a write that failed is tried again, in ms.
const RETRY_MS: u64 = 200;

/// How long the end of the program waits for a standard output that takes nothing, in ms.
pub const OUTPUT_PATIENCE_MS: u64 = 2000;

/// How long it waits for a standard error that takes nothing, in ms.
pub const ERRORS_PATIENCE_MS: u64 = 1000;

/// How long that wait sleeps at a time, in ms.
const NAP_MS: u64 = 1;

/// Starts the thread that writes lines for an operator, each with the time before it where that is asked for.
pub fn start_errors<R: Threads + Wait + Clock + Eprint + Copy + Send + 'static>(
    rt: &R,
    errors: Arc<Board, Global>,
    ear: Ear,
    tells_time: bool,
) -> Result<(), AllocError> {
    let own = *rt;
    let _detached = thread::spawn(rt, move || write_errors(&own, &errors, ear, tells_time))?;
    Ok(())
}

/// Starts the thread that writes what is printed. What comes of that is told.
pub fn start_output<R: Threads + Wait + Clock + Print + Copy + Send + 'static>(
    rt: &R,
    output: Arc<Board, Global>,
    errors: Arc<Board, Global>,
    ear: Ear,
) -> Result<(), AllocError> {
    let own = *rt;
    let _detached = thread::spawn(rt, move || write_output(&own, &output, &errors, ear))?;
    Ok(())
}

/// Writes all lines, for ever. Those that were lost are told before the next one.
fn write_errors<R: Wait + Clock + Eprint>(rt: &R, errors: &Board, mut ear: Ear, tells_time: bool) {
    for _ in rt.forever() {
        let _ = errors.bell.heard();
        let Some(line) = errors.next() else {
            rest(rt, &mut ear);
            continue;
        };
        let lost = errors.lost.take();
        if lost > 0 && eprint_lost(rt, lost).is_none() {
            errors.lost.put_back(lost);
        }
        if eprint_line(rt, line.bytes.as_slice(), tells_time).is_none() {
            errors.lost.add(1);
        }
        errors.finish(line.rows);
    }
    unreachable!()
}

/// Prints how many lines were lost.
fn eprint_lost<R: Eprint>(rt: &R, count: u64) -> Option<()> {
    rt.eprint(format_args!("sng: warning: {count} lines were lost\n"))
        .ok()
}

/// Prints a line, behind the time at which that is done where it is to begin with it.
fn eprint_line<R: Clock + Eprint>(rt: &R, line: &[u8], tells_time: bool) -> Option<()> {
    let line = str::from_utf8(line).ok()?;
    if !tells_time {
        return rt.eprint(line).ok();
    }
    let time = stamp(seconds(rt));
    let time = str::from_utf8(&time).ok()?;
    rt.eprint(format_args!("{time} {line}")).ok()
}

/// Writes all texts, for ever.
fn write_output<R: Wait + Clock + Print>(rt: &R, output: &Board, errors: &Board, mut ear: Ear) {
    for _ in rt.forever() {
        let _ = output.bell.heard();
        match output.next() {
            Some(text) => {
                write_text(rt, errors, text.bytes.as_slice());
                output.finish(text.rows);
            }
            None => rest(rt, &mut ear),
        }
    }
    unreachable!()
}

/// Writes the text to its end. What cannot be written is tried again until it can be, so that no row is left
/// out or printed in part; the first such failure is told, and the end of it.
fn write_text<R: Wait + Clock + Print>(rt: &R, errors: &Board, text: &[u8]) {
    let mut left = text;
    let mut has_failed = false;
    for _ in rt.forever() {
        if left.is_empty() {
            break;
        }
        match rt.write_some(left) {
            Ok(count) if count > 0 => left = left.get(count..).unwrap_or(&[]),
            Ok(_) => thread::sleep(rt, Duration::from_millis(RETRY_MS)),
            Err(error) => {
                if !has_failed {
                    errors.tell(
                        Level::Warning,
                        format_args!("standard output: {error}; rows wait until it can be written"),
                    );
                }
                has_failed = true;
                thread::sleep(rt, Duration::from_millis(RETRY_MS));
            }
        }
    }
    if has_failed {
        errors.tell(Level::Info, "standard output: written again");
    }
}

/// Waits for a text.
fn rest<R: Clock>(rt: &R, ear: &mut Ear) {
    if ear.wait(Duration::from_millis(LONGEST_WAIT_MS)).is_err() {
        // as after the process was stopped and continued
        thread::sleep(rt, Duration::from_millis(NAP_MS));
    }
}

/// Waits until all texts are written, or none was for so many ms. Whether all are.
pub fn wait_for<R: Clock>(rt: &R, board: &Board, patience: u64) -> bool {
    let (mut end, mut left) = (time_after(rt, patience), board.waiting());
    for _ in 0..u64::MAX {
        let waiting = board.waiting();
        if waiting == 0 {
            return true;
        }
        if waiting != left {
            (end, left) = (time_after(rt, patience), waiting);
        }
        if is_past(rt, end) {
            break;
        }
        thread::sleep(rt, Duration::from_millis(NAP_MS));
    }
    false
}
