//! What a policy lists by.
ghost use Rattle.std.specs.Prelude.{◌≡◌, IfOk};

use sng_text::ClientId;
use std::alloc::AllocError;
use std::hash::Hash;

/// A key that has an order and is found by hash, and whose copy is the same key. `Clone` has no law that a
/// clone is like its source, so that the clones of keys in order need not be in order.
pub trait Key: Ord + Hash + Drop {
    /// The same key, in memory of its own. Only memory can fail.
    fn copied(&self) -> Result<Self, AllocError>
        ensures { IfOk result (λ k. k ≡ self.now) };
}

impl Key for ClientId {
    fn copied(&self) -> Result<ClientId, AllocError> {
        self.copy()
    }
}

impl Key for [u8; 4] {
    fn copied(&self) -> Result<[u8; 4], AllocError> {
        Ok(*self)
    }
}

impl Key for u16 {
    fn copied(&self) -> Result<u16, AllocError> {
        Ok(*self)
    }
}
