use iv_words::Memory;

/// Why a text has no tokens. Each place is that of the fault's first byte, counted from 0.
#[derive(Clone, Copy, Debug, Drop)]
pub enum LexFault {
    /// No piece begins with this byte.
    BadByte(u32),
    /// A name of more than 28 bytes.
    LongName(u32),
    /// A number of 2^64 or more.
    BigLiteral(u32),
    /// A `/*` with no `*/` after it.
    OpenComment(u32),
    /// Want of memory, which says nothing of the text.
    Memory,
}

impl From<Memory> for LexFault {
    ghost use Rattle.std.specs.Prelude.{◌≡◌};
    ghost use Rattle.ivory_lexer.specs.declared.fault.LexFault.TheVariants as fault;

    ghost from_gives = { λ _ why. why ≡ fault.Memory };

    fn from(_error: Memory) -> LexFault {
        LexFault::Memory
    }
}
