use iv_words::Memory;

/// Why fields are no layout of a word.
#[derive(Clone, Copy, Debug, Drop, PartialEq, Eq)]
pub enum LayoutFault {
    /// The word is signed, or the widths do not add up to its width.
    WidthSum,
    /// The field of this number has the name of one before it.
    TwiceNamed(u32),
    /// The field of this number has no bits.
    EmptyField(u32),
    /// Want of memory, which says nothing of the fields.
    Memory,
}

impl From<Memory> for LayoutFault {
    ghost use Rattle.std.specs.Prelude.{◌≡◌};
    ghost use Rattle.bit_data.specs.declared.fault.LayoutFault.TheVariants as fault;

    ghost from_gives = { λ _ why. why ≡ fault.Memory };

    fn from(_error: Memory) -> LayoutFault {
        LayoutFault::Memory
    }
}

/// A number that has more bits than the field where it was to stand.
#[derive(Clone, Copy, Debug, Drop, PartialEq, Eq)]
pub struct TooWide {
    pub width: u32,
    pub x: i128,
}
