ghost use Rattle.std.specs.Prelude.{◌≡◌, IfOk};

use crate::key::Key;
use crate::mark::Mark;
use iv_words::{Copied, Memory, Span, Word};
use std::alloc::Global;

/// A token and the bytes that it stands on.
#[derive(Drop)]
pub struct Token {
    pub kind: TokenKind,
    pub span: Span,
}

#[derive(Drop)]
pub enum TokenKind {
    /// A name of at most 28 bytes that is no keyword.
    Name(Word),
    Number(u64),
    Key(Key),
    Mark(Mark),
}

impl TokenKind {
    /// A kind that equals this one.
    pub fn copy(&self, alloc: Global) -> Result<TokenKind, Memory>
        ensures { IfOk result (λ k. k ≡ self.now) }
    {
        match self {
            TokenKind::Name(name) => Ok(TokenKind::Name(name.copy(alloc)?)),
            TokenKind::Number(value) => Ok(TokenKind::Number(*value)),
            TokenKind::Key(key) => Ok(TokenKind::Key(*key)),
            TokenKind::Mark(mark) => Ok(TokenKind::Mark(*mark)),
        }
    }
}

impl Token {
    /// A token that equals this one.
    pub fn copy(&self, alloc: Global) -> Result<Token, Memory>
        ensures { IfOk result (λ t. t ≡ self.now) }
    {
        Ok(Token {
            kind: self.kind.copy(alloc)?,
            span: self.span,
        })
    }
}

impl Copied for Token {
    fn copied(&self, alloc: Global) -> Result<Token, Memory> {
        self.copy(alloc)
    }
}
