//! Plays a script: each line is an event, and what the gateway does about it is printed as a row.
ghost use Rattle.std.specs.Prelude.{◌≡◌, [], IfSome};
ghost use Rattle.mqtt_frames.specs.Streams.{Reading};
ghost use Rattle.sng_history.specs.Books.{IsBook};
ghost use Rattle.sng_history.specs.State.{opening};
ghost use Rattle.sng_script.specs.Input.{lines_of};
ghost use Rattle.sng_gateway.specs.Scripts.{Finishes, IsHalt, IsOutcome};
ghost use Rattle.sng_gateway.specs.Standings.{standing};

use crate::player::Player;
use sng_script::ending::end;
use sng_script::input::read_line;
use sng_script::reader::CountedReader;
use sng_script::{Obstacle, Status};
use std::alloc::Global;
use std::io::{BufRead, BufReader, BufWriter, Read, Write};

/// How many bytes are read at a time.
const INPUT_BYTES: usize = 65536;

/// How many bytes are written at a time. What is longer is written as it is, without a copy.
const OUTPUT_BYTES: usize = 16384;

/// Plays the script that `input` gives and prints a row for each event to `output`, which is flushed at the
/// end.
///
/// A policy that is refused prints `refused policy N NAME` and makes no row. A fault of the broker's bytes
/// prints `refused broker N NAME`, and a row `down`. The first line that cannot be read, as one of more than
/// `MAX_LINE` bytes, prints `line N: unreadable` and ends the run; a failed allocation ends it with
/// `out of memory`, and prints nothing else of its line. A fault of input or output prints nothing more, nor
/// does an input that needs more than `MAX_READS` reads. What was printed before stands.
pub fn play<R: Read + Drop, W: Write + Drop>(alloc: Global, input: R, mut output: W) -> Status {
    match play_buffered(alloc, input, &mut output) {
        Some(status) => status,
        None => finish(Err(Obstacle::OutOfMemory), 0, &mut output),
    }
}

/// Plays through a buffer before the output, or not at all where there is no memory for it.
fn play_buffered<R: Read + Drop, W: Write>(
    alloc: Global,
    input: R,
    output: &mut W,
) -> Option<Status> {
    let mut writer = BufWriter::with_capacity(alloc, OUTPUT_BYTES, output).ok()?;
    Some(play_script(alloc, input, &mut writer))
}

/// Plays the script as `play` does, and writes each row as it comes.
pub fn play_script<R: Read + Drop, W: Write>(alloc: Global, input: R, output: &mut W) -> Status
    ensures { IfSome (R.remaining input) (λ script. IsOutcome result (lines_of script)
        (W.contents output.old) (W.contents output.new)) }
{
    let mut line = 0;
    let played = play_input(alloc, input, output, &mut line);
    finish(played, line, output)
}

/// Plays through a buffer behind the input. `line` is left as the number of the last line that was begun,
/// from 1.
fn play_input<R: Read + Drop, W: Write>(
    alloc: Global,
    input: R,
    output: &mut W,
    line: &mut u64,
) -> Result<(), Obstacle>
    ensures { IfSome (R.remaining input) (λ script. IsHalt result line.new (lines_of script)
        (W.contents output.old) (W.contents output.new)) }
{
    let reader = CountedReader::new(input);
    match BufReader::with_capacity(alloc, INPUT_BYTES, reader) {
        Ok(mut reader) => play_lines(alloc, &mut reader, output, line),
        Err(_) => Err(Obstacle::OutOfMemory),
    }
}

/// Plays line by line.
fn play_lines<R: BufRead, W: Write>(
    alloc: Global,
    reader: &mut R,
    output: &mut W,
    line: &mut u64,
) -> Result<(), Obstacle>
    ensures { IfSome (R.remaining reader.old) (λ script. IsHalt result line.new (lines_of script)
        (W.contents output.old) (W.contents output.new)) }
{
    match Player::new(alloc) {
        Ok(mut player) => play_on(&mut player, alloc, reader, output, line),
        Err(_) => Err(Obstacle::OutOfMemory),
    }
}

/// Plays line by line on a player that has not begun. It is lent, so that nothing of it is dropped at the
/// ends here.
fn play_on<R: BufRead, W: Write>(
    player: &mut Player,
    alloc: Global,
    reader: &mut R,
    output: &mut W,
    line: &mut u64,
) -> Result<(), Obstacle>
    requires state { IsBook opening [] (standing player.old).state }
    requires rows { (standing player.old).rows ≡ 0 }
    requires stream { (standing player.old).stream ≡ Reading [] }
    ensures { IfSome (R.remaining reader.old) (λ script. IsHalt result line.new (lines_of script)
        (W.contents output.old) (W.contents output.new)) }
{
    let mut text = Vec::new(alloc);
    for number in 1..u64::MAX {
        *line = number;
        if !read_line(reader, &mut text)? {
            return Ok(());
        }
        player.play(text.as_slice(), output)?;
    }
    Err(Obstacle::Failed)
}

/// Prints why the script ended, where that is printed, and ends the command.
fn finish<W: Write>(played: Result<(), Obstacle>, line: u64, output: &mut W) -> Status
    ensures { Finishes result played line (W.contents output.old) (W.contents output.new) }
{
    match played {
        Ok(()) => end(Status::Done, Ok(()), output),
        Err(Obstacle::Unreadable) => {
            let printed = writeln!(output, "line {line}: unreadable");
            end(Status::Unreadable, printed, output)
        }
        Err(Obstacle::OutOfMemory) => {
            let printed = output.write_all(b"out of memory\n");
            end(Status::OutOfMemory, printed, output)
        }
        Err(Obstacle::Failed) => end(Status::Failed, Ok(()), output),
    }
}
