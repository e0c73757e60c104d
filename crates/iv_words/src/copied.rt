ghost use Rattle.std.specs.Prelude.{◌≡◌, IfOk};

use crate::memory::Memory;
use std::alloc::Global;

/// What can be copied where there is memory; the copy equals what it was made from.
pub trait Copied {
    fn copied(&self, alloc: Global) -> Result<Self, Memory>
        ensures { IfOk result (λ c. c ≡ self.now) };
}

impl Copied for u8 {
    fn copied(&self, _alloc: Global) -> Result<u8, Memory> {
        Ok(*self)
    }
}

impl Copied for u32 {
    fn copied(&self, _alloc: Global) -> Result<u32, Memory> {
        Ok(*self)
    }
}

impl Copied for u64 {
    fn copied(&self, _alloc: Global) -> Result<u64, Memory> {
        Ok(*self)
    }
}

impl Copied for i128 {
    fn copied(&self, _alloc: Global) -> Result<i128, Memory> {
        Ok(*self)
    }
}

impl<T: Drop + Copied> Copied for Option<T> {
    fn copied(&self, alloc: Global) -> Result<Option<T>, Memory> {
        match self {
            Some(x) => Ok(Some(x.copied(alloc)?)),
            None => Ok(None),
        }
    }
}
