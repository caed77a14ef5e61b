//! A policy text from a file, of at most as many bytes as a line may have.
ghost use Rattle.std.specs.Prelude.{◌≡◌, ◌≤◌, IfOk, IfSome, vec_len};
ghost use Rattle.sng_script.specs.declared.limits.TheConstants.{MAX_LINE};

use crate::limits::MAX_LINE;
use crate::reader::CountedReader;
use std::alloc::Global;
use std::io::{Error, Read, Result};

/// All bytes that the reader has left, where they are no more than `MAX_LINE`. It is an error where they are
/// more, where a read fails or memory is wanting, and where more than `MAX_READS` reads are needed.
pub fn read_text<R: Read + Drop>(alloc: Global, input: R) -> Result<Vec<u8>>
    ensures limit { IfOk result (λ text. vec_len text ≤ MAX_LINE) }
    ensures all { IfOk result (λ text. IfSome (R.remaining input) (λ bytes. text.items ≡ bytes)) }
{
    let mut text = Vec::new(alloc);
    CountedReader::new(input)
        .take(MAX_LINE as u64 + 1)
        .read_to_end(&mut text)?;
    if text.len() > MAX_LINE {
        return Err(Error::other("the text is too long"));
    }
    Ok(text)
}
