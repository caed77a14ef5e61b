//! Where a text stops being JSON.
use crate::nesting::misfit;
use serde_json::Value;
use std::alloc::{AllocError, Global};
use std::str;

/// A line of a text and a column there, both from 1. A column counts bytes.
#[derive(Clone, Copy, Debug, PartialEq, Eq)]
pub struct Position {
    pub line: usize,
    pub column: usize,
}

impl Position {
    /// The first byte of a text.
    pub const FIRST: Position = Position { line: 1, column: 1 };

    /// Where the text stops being JSON: at the first byte that is not UTF-8, and else at the first token that
    /// does not fit, or at the end where one is missing. For a text whose tokens all fit it is where the
    /// reader of policies gives up, as at a number that is too large; the first byte, where it does not. Only
    /// memory can fail. No contract says which position it is, since none says where a reader stands.
    pub fn of_fault(alloc: Global, text: &[u8]) -> Result<Position, AllocError> {
        match str::from_utf8(text) {
            Err(error) => Ok(position_at(text, error.valid_up_to())),
            Ok(valid) => match misfit(alloc, valid)? {
                Some(offset) => Ok(position_at(text, offset)),
                None => position_of_error(alloc, text),
            },
        }
    }
}

/// The position behind so many bytes of the text.
fn position_at(text: &[u8], offset: usize) -> Position {
    let mut position = Position::FIRST;
    for byte in text.iter().take(offset) {
        if *byte == b'\n' {
            position.line = position.line.saturating_add(1);
            position.column = 1;
        } else {
            position.column = position.column.saturating_add(1);
        }
    }
    position
}

/// Where the reader of policies gives up.
fn position_of_error(alloc: Global, text: &[u8]) -> Result<Position, AllocError> {
    match Value::from_slice(alloc, text) {
        Ok(_) => Ok(Position::FIRST),
        Err(error) if error.is_memory() => Err(AllocError),
        Err(error) => Ok(Position {
            line: error.line().max(1),
            column: error.column().max(1),
        }),
    }
}
