ghost use Rattle.std.specs.Prelude.{◌≡◌, IfOk};

use crate::copied::Copied;
use crate::memory::Memory;
use crate::word::Word;
use std::alloc::Global;

/// A range of byte places in a text, from `start` up to `end`, which is not part of it.
#[derive(Clone, Copy, Debug, Drop, PartialEq, Eq)]
pub struct Span {
    pub start: u32,
    pub end: u32,
}

/// A name and the place where it stands.
#[derive(Debug, Drop, PartialEq, Eq)]
pub struct Name {
    pub text: Word,
    pub span: Span,
}

impl Name {
    /// A name that equals this one.
    pub fn copy(&self, alloc: Global) -> Result<Name, Memory>
        ensures { IfOk result (λ n. n ≡ self.now) }
    {
        Ok(Name {
            text: self.text.copy(alloc)?,
            span: self.span,
        })
    }
}

impl Copied for Name {
    fn copied(&self, alloc: Global) -> Result<Name, Memory> {
        self.copy(alloc)
    }
}
