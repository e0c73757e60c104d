//! Copies of wishes, fields and layouts: each equals what it was made from.

ghost use Rattle.std.specs.Prelude.{◌≡◌, IfOk};

use crate::layout::{BitLayout, FieldBits, FieldWish};
use iv_words::{Copied, Memory};
use std::alloc::Global;

impl FieldWish {
    /// A wish that equals this one.
    pub fn copy(&self, alloc: Global) -> Result<FieldWish, Memory>
        ensures { IfOk result (λ copy. copy ≡ self.now) }
    {
        Ok(FieldWish {
            name: self.name.copy(alloc)?,
            width: self.width,
            truth: self.truth,
        })
    }
}

impl FieldBits {
    /// A field that equals this one.
    pub fn copy(&self, alloc: Global) -> Result<FieldBits, Memory>
        ensures { IfOk result (λ copy. copy ≡ self.now) }
    {
        Ok(FieldBits {
            name: self.name.copy(alloc)?,
            low: self.low,
            width: self.width,
            truth: self.truth,
        })
    }
}

impl BitLayout {
    /// A layout that equals this one.
    pub fn copy(&self, alloc: Global) -> Result<BitLayout, Memory>
        ensures { IfOk result (λ copy. copy ≡ self.now) }
    {
        Ok(BitLayout {
            name: self.name.copy(alloc)?,
            word: self.word,
            fields: self.fields.copy(alloc)?,
        })
    }
}

impl Copied for FieldWish {
    fn copied(&self, alloc: Global) -> Result<FieldWish, Memory> {
        self.copy(alloc)
    }
}

impl Copied for FieldBits {
    fn copied(&self, alloc: Global) -> Result<FieldBits, Memory> {
        self.copy(alloc)
    }
}

impl Copied for BitLayout {
    fn copied(&self, alloc: Global) -> Result<BitLayout, Memory> {
        self.copy(alloc)
    }
}
