//! Which token of a JSON text is the first that does not fit.
use json::{Reader, Scratch, Token};
use std::alloc::{AllocError, Global};

/// How deep a text may nest, as for the library that reads policies.
const MAX_DEPTH: usize = 127;

/// What is open at a place of a text.
#[derive(Clone, Copy, Debug, PartialEq, Eq)]
enum Open {
    Object,
    Array,
}

/// What may stand next in a text.
#[derive(Clone, Copy, Debug, PartialEq, Eq)]
enum Wanted {
    /// The one value of the text.
    Text,
    /// A name, or the end of the object.
    Name,
    /// The value of a member.
    Value,
    /// An item, or the end of the array.
    Item,
    /// The end of the text.
    End,
}

/// Where the first token begins that does not fit, or where one is missing at the end: how many bytes stand
/// before it. None where all tokens fit. Only memory can fail.
pub fn misfit(alloc: Global, text: &str) -> Result<Option<usize>, AllocError> {
    let mut scratch = Scratch::new(alloc);
    let mut reader = Reader::new(text, &mut scratch)?;
    let mut open = Vec::new(alloc);
    let mut wanted = Wanted::Text;
    for _ in 0..=text.len() {
        let before = reader.offset();
        let Some(token) = reader.next() else {
            let is_whole = wanted == Wanted::End;
            return Ok(if is_whole { None } else { Some(before) });
        };
        match after(&mut open, wanted, token)? {
            Some(next) => wanted = next,
            None => return Ok(Some(before)),
        }
    }
    Ok(None)
}

/// What may stand behind the token, where it fits.
fn after(
    open: &mut Vec<Open>,
    wanted: Wanted,
    token: Token<'_>,
) -> Result<Option<Wanted>, AllocError> {
    match (token, wanted) {
        (Token::Key(_), Wanted::Name) => Ok(Some(Wanted::Value)),
        (Token::EndObject, Wanted::Name) | (Token::EndArray, Wanted::Item) => {
            let _closed = open.pop();
            Ok(Some(behind_value(open)))
        }
        (Token::BeginObject, Wanted::Text | Wanted::Value | Wanted::Item) => {
            opened(open, Open::Object, Wanted::Name)
        }
        (Token::BeginArray, Wanted::Text | Wanted::Value | Wanted::Item) => {
            opened(open, Open::Array, Wanted::Item)
        }
        (
            Token::String(_) | Token::Number(_) | Token::Bool(_) | Token::Null,
            Wanted::Text | Wanted::Value | Wanted::Item,
        ) => Ok(Some(behind_value(open))),
        _ => Ok(None),
    }
}

/// What may stand in what is opened, where it is not too deep.
fn opened(open: &mut Vec<Open>, kind: Open, wanted: Wanted) -> Result<Option<Wanted>, AllocError> {
    if open.len() >= MAX_DEPTH {
        return Ok(None);
    }
    open.push(kind)?;
    Ok(Some(wanted))
}

/// What may stand behind a value.
fn behind_value(open: &[Open]) -> Wanted {
    match open.last() {
        None => Wanted::End,
        Some(Open::Object) => Wanted::Name,
        Some(Open::Array) => Wanted::Item,
    }
}
