use core_tree::SiteKind;
use iv_words::Span;

/// A site: its number, what its check guards against, and the token that carries it.
#[derive(Clone, Copy, Debug, Drop, PartialEq, Eq)]
pub struct Site {
    pub id: u32,
    pub kind: SiteKind,
    pub span: Span,
}
