//! The lines of a script. Words are parted by one space.
ghost use Rattle.std.specs.Prelude.{◌≡◌, ◌≢◌, Some, IfOk, IfErr, codes};
ghost use Rattle.sng_script.specs.Lines.{line_of, word_line, words_line, policy_line, from_line, broker_line};
ghost use Rattle.sng_script.specs.Lines.{tick_line};
ghost use Rattle.sng_script.specs.Obstacles.{fault_of};
ghost use Rattle.sng_scope.specs.Policies.{policy_of};

use crate::datagram::{read_datagram, read_piece};
use crate::number::number_of;
use crate::sender::{address_of, parted};
use sng_book::Event;
use sng_scope::{PolicyFault, read_policy};
use sng_text::WireBytes;
use std::alloc::Global;

/// What a line of a script says.
#[derive(Debug, Drop)]
pub enum Line {
    /// Nothing.
    Empty,
    /// An event.
    Event(Event),
    /// A policy that is refused, by the first fault of its text.
    Refused(PolicyFault),
    /// A piece of the broker's bytes.
    Broker(WireBytes),
}

/// Why a line is not read.
#[derive(Clone, Copy, Debug, PartialEq, Eq)]
pub enum LineFault {
    /// It is none that a script may have.
    Unreadable,
    /// Allocation failed.
    Memory,
}

/// What the line says, without the line feed at its end: `up`, `down`, `take`, `policy TEXT`,
/// `from IP:PORT HEX`, `broker HEX`, `tick MS`, or nothing. Any other line is unreadable, whatever memory
/// there is.
pub fn line_of(alloc: Global, line: &[u8]) -> Result<Line, LineFault>
    ensures ok { IfOk result (λ said. line_of line.now ≡ Some said) }
    ensures err { IfErr result (λ fault. fault ≡ fault_of (line_of line.now)) }
{
    match parted(line, b' ') {
        None => word_line(line),
        Some((word, rest)) => words_line(alloc, word, rest),
    }
}

/// What a line of one word says, or of none.
#[inline(never)]
fn word_line(word: &[u8]) -> Result<Line, LineFault>
    ensures ok { IfOk result (λ said. word_line word.now ≡ Some said) }
    ensures err { IfErr result (λ fault. fault ≡ fault_of (word_line word.now)) }
{
    if word.is_empty() {
        Ok(Line::Empty)
    } else if word == b"up".as_slice() {
        Ok(Line::Event(Event::Up))
    } else if word == b"down".as_slice() {
        Ok(Line::Event(Event::Down))
    } else if word == b"take".as_slice() {
        Ok(Line::Event(Event::Take))
    } else {
        Err(LineFault::Unreadable)
    }
}

/// What a line says with this word before its first space, and this behind it.
#[inline(always)]
fn words_line(alloc: Global, word: &[u8], rest: &[u8]) -> Result<Line, LineFault>
    ensures ok { IfOk result (λ said. words_line word.now rest.now ≡ Some said) }
    ensures err { IfErr result (λ fault. fault ≡ fault_of (words_line word.now rest.now)) }
{
    if word == b"from".as_slice() {
        from_line(alloc, rest)
    } else if word == b"broker".as_slice() {
        broker_line(alloc, rest)
    } else {
        other_line(alloc, word, rest)
    }
}

/// The same for the words that few lines begin with, apart: what it answers would else be moved for each line.
#[inline(never)]
fn other_line(alloc: Global, word: &[u8], rest: &[u8]) -> Result<Line, LineFault>
    requires from { word.now ≢ codes "from" }
    requires broker { word.now ≢ codes "broker" }
    ensures ok { IfOk result (λ said. words_line word.now rest.now ≡ Some said) }
    ensures err { IfErr result (λ fault. fault ≡ fault_of (words_line word.now rest.now)) }
{
    if word == b"policy".as_slice() {
        policy_line(alloc, rest)
    } else if word == b"tick".as_slice() {
        tick_line(rest).ok_or(LineFault::Unreadable)
    } else {
        Err(LineFault::Unreadable)
    }
}

/// The policy of the text is in force from now on, or it is refused. Only memory can fail.
#[cold]
#[inline(never)]
fn policy_line(alloc: Global, text: &[u8]) -> Result<Line, LineFault>
    ensures ok { IfOk result (λ said. said ≡ policy_line (policy_of text.now)) }
    ensures err { IfErr result (λ fault. fault ≡ LineFault.Memory) }
{
    match read_policy(alloc, text) {
        Ok(policy) => Ok(Line::Event(Event::Replace(policy))),
        Err(PolicyFault::Memory) => Err(LineFault::Memory),
        Err(fault) => Ok(Line::Refused(fault)),
    }
}

/// A datagram came from an address.
fn from_line(alloc: Global, words: &[u8]) -> Result<Line, LineFault>
    ensures ok { IfOk result (λ said. from_line words.now ≡ Some said) }
    ensures err { IfErr result (λ fault. fault ≡ fault_of (from_line words.now)) }
{
    let Some((word, digits)) = parted(words, b' ') else {
        return Err(LineFault::Unreadable);
    };
    let Some(from) = address_of(word) else {
        return Err(LineFault::Unreadable);
    };
    let datagram = read_datagram(alloc, digits)?;
    Ok(Line::Event(Event::Datagram(from, datagram)))
}

/// A piece of bytes came from the broker.
fn broker_line(alloc: Global, digits: &[u8]) -> Result<Line, LineFault>
    ensures ok { IfOk result (λ said. broker_line digits.now ≡ Some said) }
    ensures err { IfErr result (λ fault. fault ≡ fault_of (broker_line digits.now)) }
{
    let piece = read_piece(alloc, digits)?;
    Ok(Line::Broker(piece))
}

/// The clock is at this many ms.
#[inline(never)]
fn tick_line(digits: &[u8]) -> Option<Line>
    ensures { result ≡ tick_line digits.now }
{
    let clock = number_of(digits)?;
    Some(Line::Event(Event::Tick(clock)))
}
