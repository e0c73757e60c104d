use std::alloc::AllocError;

/// Want of memory: the one way in which a call that only allocates can fail.
#[derive(Clone, Copy, Debug, Drop, PartialEq, Eq)]
pub struct Memory;

impl From<AllocError> for Memory {
    ghost use Rattle.std.specs.Prelude.{◌≡◌};
    ghost use Rattle.iv_words.specs.declared.memory.Memory.{Memory};

    ghost from_gives = { λ _ m. m ≡ record {} };

    fn from(_error: AllocError) -> Memory {
        Memory
    }
}
