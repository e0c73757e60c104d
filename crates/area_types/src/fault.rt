use iv_words::Memory;

/// Why a shape names no area of a table.
#[derive(Clone, Copy, Debug, Drop, PartialEq, Eq)]
pub enum AreaFault {
    /// An array has the length 0 or one above 65,535.
    ZeroLength,
    /// A struct is not in the table, or not yet.
    LaterStruct,
    /// More than 65,535 bytes on the target t32, or more than 32 levels of arrays and structs.
    TooLarge,
    /// Want of memory, which says nothing of the shape.
    Memory,
}

impl From<Memory> for AreaFault {
    ghost use Rattle.std.specs.Prelude.{◌≡◌};
    ghost use Rattle.area_types.specs.declared.fault.AreaFault.TheVariants as fault;

    ghost from_gives = { λ _ why. why ≡ fault.Memory };

    fn from(_error: Memory) -> AreaFault {
        AreaFault::Memory
    }
}
