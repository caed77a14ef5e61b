//! Where memory is refused what was made before is dropped. That is done by a function that knows nothing of what
//! it drops, and not where it was made: so little is proved of it, and that once.
ghost use Rattle.std.specs.Prelude.{IsErr};

use std::alloc::AllocError;

/// Memory was refused, and this is dropped.
#[cold]
#[inline(never)]
pub fn out_of_memory<T, L: Drop>(_left: L) -> Result<T, AllocError>
    ensures { IsErr result }
{
    Err(AllocError)
}
