//! Copies that may be refused.
ghost use Rattle.std.specs.Prelude.{◌≡◌, IfOk};

use crate::Memory;
use std::alloc::Global;

/// A type whose values can be copied where there is memory for it.
///
/// std's `Clone` says of a clone that its parts are clones; this trait says that the copy equals
/// its original.
pub trait Duplicate {
    /// An equal value, made of memory of `alloc`.
    fn copy(&self, alloc: Global) -> Result<Self, Memory>
        ensures { IfOk result (λ made. made ≡ self.now) };
}

impl Duplicate for u32 {
    fn copy(&self, _alloc: Global) -> Result<u32, Memory> {
        Ok(*self)
    }
}

impl Duplicate for u8 {
    fn copy(&self, _alloc: Global) -> Result<u8, Memory> {
        Ok(*self)
    }
}
