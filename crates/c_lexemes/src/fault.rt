ghost use Rattle.std.specs.Prelude.{◌≡◌};
ghost use Rattle.c_lexemes.specs.declared.fault.Fault.TheVariants.{Memory};

use iv_words::Memory;

/// Why reading stopped. The bytes are those from the piece at fault on.
#[derive(Drop)]
pub enum Fault<'a> {
    Memory,
    /// No text goes on with the first piece of these bytes, or none ends where no byte is left.
    Unexpected(&'a [u8]),
    /// The first of these bytes opens one bracket more than may be open.
    TooDeep(&'a [u8]),
}

impl<'a> From<Memory> for Fault<'a> {
    ghost from_gives = { λ _ f. f ≡ Memory };

    fn from(_error: Memory) -> Fault<'a> {
        Fault::Memory
    }
}
