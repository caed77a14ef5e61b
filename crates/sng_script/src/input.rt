//! Reads lines of at most `MAX_LINE` bytes.
ghost use Rattle.std.specs.Prelude.{◌≡◌, ◌≢◌, ◌++◌, ◌≤◌, ◌<◌, ◌+◌, length, slice_index, take, vec_len, OnOk};
ghost use Rattle.std.specs.Prelude.{OnErr, IfOk, IfNone, IfSome};
ghost use Rattle.sng_script.specs.Input.{BeginsTooLong, Ends, IsNextLine, IsTooLong, IsWithinLine, Takes};
ghost use Rattle.sng_script.specs.declared.limits.TheConstants.{MAX_LINE};

use crate::limits::MAX_LINE;
use crate::obstacle::Obstacle;
use memchr::memchr;
use std::io::{BufRead, Error, ErrorKind};

/// What a piece of the input leaves of its line.
enum Piece {
    /// The line goes on.
    Front,
    /// The line ended with its line feed.
    Whole,
    /// The input ended.
    End,
}

/// What ended a line.
#[derive(Clone, Copy, Debug, PartialEq, Eq)]
pub enum LineEnd {
    /// Its line feed.
    Feed,
    /// The end of the input.
    Input,
}

/// Puts the next line in `text`, without its line feed. Whether there was a line: the last one may lack its
/// line feed. A longer line than `MAX_LINE` is unreadable, and nothing past the limit is kept.
pub fn read_line<R: BufRead>(reader: &mut R, text: &mut Vec<u8>) -> Result<bool, Obstacle>
    ensures within { vec_len text.new ≤ MAX_LINE }
    ensures ok { IfOk result (λ is_line.
        IsNextLine is_line (R.remaining reader.old) (R.remaining reader.new) text.new.items) }
    ensures long { result ≡ Err Obstacle.Unreadable → BeginsTooLong (R.remaining reader.old) }
{
    match read_to_end_of_line(reader, text)? {
        LineEnd::Feed => Ok(true),
        LineEnd::Input => Ok(!text.is_empty()),
    }
}

/// Puts what the input has up to the end of a line in `text`, without a line feed, and tells which end that
/// was. A longer line than `MAX_LINE` is unreadable, and nothing past the limit is kept.
pub fn read_to_end_of_line<R: BufRead>(
    reader: &mut R,
    text: &mut Vec<u8>,
) -> Result<LineEnd, Obstacle>
    ensures within { vec_len text.new ≤ MAX_LINE }
    ensures ok { IfOk result (λ end.
        Ends end (R.remaining reader.old) (R.remaining reader.new) text.new.items) }
    ensures long { result ≡ Err Obstacle.Unreadable → BeginsTooLong (R.remaining reader.old) }
{
    text.clear();
    for _ in 0..u64::MAX {
        match read_piece(reader, text)? {
            Piece::Front => {}
            Piece::Whole => return Ok(LineEnd::Feed),
            Piece::End => return Ok(LineEnd::Input),
        }
    }
    Err(Obstacle::Failed)
}

/// Appends what the reader has of the line.
fn read_piece<R: BufRead>(reader: &mut R, text: &mut Vec<u8>) -> Result<Piece, Obstacle>
    requires { vec_len text.old ≤ MAX_LINE }
    ensures within { vec_len text.new ≤ MAX_LINE }
    ensures ok { IfOk result (λ piece. Takes piece
        (R.remaining reader.old) (R.remaining reader.new) text.old.items text.new.items) }
    ensures long { result ≡ Err Obstacle.Unreadable
        → IsTooLong (R.remaining reader.old) text.old.items }
{
    let bytes = match reader.fill_buf() {
        Ok(bytes) => bytes,
        Err(error) => return obstacle_of(&error),
    };
    let count = bytes.len();
    if count == 0 {
        return Ok(Piece::End);
    }
    match line_feed_in(bytes) {
        Some(at) => {
            keep(text, &bytes[..at])?;
            reader.consume(at + 1);
            Ok(Piece::Whole)
        }
        None => {
            keep(text, bytes)?;
            reader.consume(count);
            Ok(Piece::Front)
        }
    }
}

/// The place of the first line feed.
pub fn line_feed_in(bytes: &[u8]) -> Option<usize>
    ensures found { IfSome result (λ at. at < length bytes.now) }
    ensures before { IfSome result (λ at. IsWithinLine (take at bytes.now)) }
    ensures there { IfSome result (λ at. slice_index bytes.now at ≡ 10) }
    ensures none { IfNone result (IsWithinLine bytes.now) }
{
    memchr(b'\n', bytes)
}

/// Why a read that failed ends the script, unless it is to be tried again.
fn obstacle_of(error: &Error) -> Result<Piece, Obstacle>
    ensures ok { IfOk result (λ piece. piece ≡ Piece.Front) }
    ensures err { result ≢ Err Obstacle.Unreadable }
{
    match error.kind() {
        ErrorKind::Interrupted => Ok(Piece::Front),
        ErrorKind::OutOfMemory => Err(Obstacle::OutOfMemory),
        _ => Err(Obstacle::Failed),
    }
}

/// Appends a piece of a line that stays within its limit.
fn keep(text: &mut Vec<u8>, piece: &[u8]) -> Result<(), Obstacle>
    requires { vec_len text.old ≤ MAX_LINE }
    ensures ok { OnOk result (text.new.items ≡ text.old.items ++ piece.now) }
    ensures err { OnErr result (text.new.items ≡ text.old.items) }
    ensures long { result ≡ Err Obstacle.Unreadable → MAX_LINE < vec_len text.old + length piece.now }
    ensures within { vec_len text.new ≤ MAX_LINE }
{
    if piece.len() > MAX_LINE - text.len() {
        return Err(Obstacle::Unreadable);
    }
    text.extend_from_slice(piece)?;
    Ok(())
}
