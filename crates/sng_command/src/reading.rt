//! The words of the command line as they came, which need not be UTF-8: of a word that is not a valid filter
//! the place is reported.

use sng_text::Octets;
use std::alloc::{AllocError, Global};
use std::env::FillError;
use std::rt::Env;

/// How many bytes a word has at most that is read at the first try.
const USUAL_BYTES: usize = 4096;

/// All words, of which the first is the program's name. Only memory can fail.
pub fn words<R: Env + AllocGlobal>(rt: &R) -> Result<Vec<Octets>, AllocError> {
    let alloc = rt.alloc();
    let mut words = Vec::new(alloc);
    for place in 0..usize::MAX {
        match word(rt, alloc, place)? {
            None => break,
            Some(word) => words.push(word)?,
        }
    }
    Ok(words)
}

/// The word at the place, where there is one.
fn word<R: Env>(rt: &R, alloc: Global, place: usize) -> Result<Option<Octets>, AllocError> {
    let mut size = USUAL_BYTES;
    for _ in 0..usize::BITS {
        let mut buffer = vec![in alloc; 0; size]?;
        match rt.arg(place, buffer.as_mut_slice()) {
            Ok(count) => {
                buffer.truncate(count);
                return Ok(Some(Octets::from(buffer)));
            }
            Err(FillError::NotPresent) => return Ok(None),
            Err(FillError::TooLong) => size = size.saturating_mul(2),
        }
    }
    Err(AllocError)
}

/// The words as texts, with U+FFFD for what is no UTF-8: by these the command line is read.
pub fn texts(alloc: Global, words: &[Octets]) -> Result<Vec<String>, AllocError> {
    let mut texts = Vec::with_capacity(alloc, words.len())?;
    for word in words {
        texts.push(String::from_utf8_lossy(alloc, word.as_slice())?)?;
    }
    Ok(texts)
}
