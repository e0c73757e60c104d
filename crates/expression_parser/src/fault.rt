ghost use Rattle.std.specs.Prelude.{◌≡◌};
ghost use Rattle.expression_parser.specs.declared.fault.Fault.TheVariants.{Memory};

use iv_words::Memory;
use ivory_lexer::Token;

/// Why reading stopped. The tokens are those from the fault on.
#[derive(Drop)]
pub enum Fault<'a> {
    Memory,
    /// No text goes on with the first of these tokens, or none ends where no token is left.
    Unexpected(&'a [Token]),
    /// The first of these tokens nests deeper than the limit.
    TooDeep(&'a [Token]),
}

impl<'a> From<Memory> for Fault<'a> {
    ghost from_gives = { λ _ f. f ≡ Memory };

    fn from(_error: Memory) -> Fault<'a> {
        Fault::Memory
    }
}
