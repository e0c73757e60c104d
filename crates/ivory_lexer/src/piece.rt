use crate::mark::Mark;

/// What a run of bytes is as a whole.
#[derive(Clone, Copy)]
pub enum Piece {
    /// White space or a comment.
    Dropped,
    /// A `/*` with no `*/` after it, and all that follows.
    OpenComment,
    Name,
    /// A number, or none where it is 2^64 or more.
    Number(Option<u64>),
    Mark(Mark),
}
