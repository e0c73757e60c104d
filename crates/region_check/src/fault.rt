use area_types::Region;
use iv_words::Memory;

/// Why no substitution fits the arguments of a call: what is at fault with the first of them that is. `arg` is its number,
/// counted from 0; a number past the greatest `u32` is given as that.
#[derive(Clone, Copy, Debug, PartialEq, Eq)]
pub enum RegionFault {
    /// Its region is `second`, where `first` is already required.
    Clash {
        arg: u32,
        first: Region,
        second: Region,
    },
    /// It only reads, where a mutable reference is wanted.
    Mutable {
        arg: u32,
    },
    /// It is no reference to the area that is wanted.
    AreaDiffers {
        arg: u32,
    },
    /// Want of memory, which says nothing of the arguments.
    Memory,
}

impl From<Memory> for RegionFault {
    ghost use Rattle.std.specs.Prelude.{◌≡◌};
    ghost use Rattle.region_check.specs.declared.fault.RegionFault.TheVariants as fault;

    ghost from_gives = { λ _ why. why ≡ fault.Memory };

    fn from(_error: Memory) -> RegionFault {
        RegionFault::Memory
    }
}
