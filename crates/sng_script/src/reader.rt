//! A reader that gives up on an input that never ends.
ghost use Rattle.std.specs.Prelude.{◌≡◌};
ghost use Rattle.sng_script.specs.declared.limits.TheConstants.{MAX_READS};

use crate::limits::MAX_READS;
use std::io::{Error, Read, Result};

/// Passes reads on, as many as are left. From then on each one fails.
#[derive(Drop)]
pub struct CountedReader<R> {
    inner: R,
    left: u32,
}

impl<R: Read> CountedReader<R> {
    /// A reader with `MAX_READS` calls left.
    pub fn new(inner: R) -> CountedReader<R>
        ensures left { result.left ≡ MAX_READS }
        ensures inner { result.inner ≡ inner }
    {
        CountedReader {
            inner,
            left: MAX_READS,
        }
    }
}

impl<R: Read> Read for CountedReader<R> {
    ghost remaining = { λ reader. R.remaining reader.inner };

    fn read(&mut self, buf: &mut [u8]) -> Result<usize> {
        if self.left == 0 {
            return Err(Error::other("too many reads"));
        }
        self.left -= 1;
        self.inner.read(buf)
    }
}
