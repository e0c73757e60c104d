ghost use Rattle.std.specs.Prelude.{◌≡◌, ℕ, ◌+◌, ◌<◌, ◌≤◌, ◌^◌, length, Option, IfOk};

use iv_words::{Memory, Word};
use std::alloc::Global;
use thiserror::Error;

/// A file by its name.
#[derive(Debug, Drop, PartialEq, Eq)]
pub struct File {
    pub name: Word,
    pub bytes: Word,
}

/// Why a load gave nothing: the store failed, as its count of faults shows, or memory is wanting.
#[derive(Clone, Copy, Debug, Drop, Error, PartialEq, Eq)]
pub enum LoadFault {
    #[error("load fault")]
    Fault,
    #[error("no memory")]
    Memory,
}

impl From<Memory> for LoadFault {
    ghost use Rattle.std.specs.Prelude.{◌≡◌};
    ghost use Rattle.iv_base.specs.declared.store.LoadFault.TheVariants as load_fault;

    ghost from_gives = { λ _ f. f ≡ load_fault.Memory };

    fn from(_memory: Memory) -> LoadFault {
        LoadFault::Memory
    }
}

/// What gives the bytes of a file by its name.
pub trait Store {
    ghost use Rattle.iv_base.specs.Counts.{capped};
    ghost use Rattle.iv_base.specs.Stores.{FileMap, Gives, HasLoadCause};

    /// How often it has failed.
    ghost faults: { Self → ℕ };

    /// The bytes under each name, where it tells.
    ghost holds: { Self → Option FileMap };

    /// How often it was asked.
    ghost loads: { Self → ℕ };

    /// Gives the first `most + 1` bytes under the name, or all where there are fewer: so that the caller sees whether
    /// there are more than `most`.
    fn load(&mut self, alloc: Global, name: &Word, most: u64) -> Result<Word, LoadFault>
        requires { most < 2 ^ 32 }
        ensures given { IfOk result (λ w. Gives (holds self.old) name.now most w) }
        ensures bounded { IfOk result (λ w. length w ≤ most + 1) }
        ensures holds { holds self.new ≡ holds self.old }
        ensures loads { loads self.new ≡ capped (loads self.old + 1) }
        ensures cause { HasLoadCause (faults self.old) (faults self.new) result };
}
