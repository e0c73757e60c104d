use iv_words::{IntKind, Seq, Word};

/// A type whose values a script can write: a truth, or a whole number of a kind.
#[derive(Clone, Copy, Debug, Drop, PartialEq, Eq)]
pub enum Plain {
    Truth,
    Int(IntKind),
}

/// A procedure that the outside may call, with the types of its parameters and of its result, if it has one.
#[derive(Debug, Drop)]
pub struct Export {
    pub name: Word,
    pub params: Seq<Plain>,
    pub result: Option<Plain>,
}

/// What the outside does in one run: the calls that it makes, and the replies that imports give it, each in order.
#[derive(Debug, Drop)]
pub struct Script {
    pub calls: Seq<EntryCall>,
    pub replies: Seq<Reply>,
}

/// One call of an exported procedure. A truth is the number 1 or 0. `line` is the script's line, from 1.
#[derive(Debug, Drop)]
pub struct EntryCall {
    pub name: Word,
    pub values: Seq<i128>,
    pub line: u32,
}

/// What one call of an import gives back: its result, and then the cells that it writes. `line` is the script's line.
#[derive(Debug, Drop)]
pub struct Reply {
    pub values: Seq<i128>,
    pub line: u32,
}

/// What the outside sees: a call of an import with its arguments, or the end of an entry call with its result.
#[derive(Debug, Drop)]
pub enum Event {
    Call(Word, Seq<Piece>),
    Ret(Word, Option<i128>),
}

/// An argument of an import as the outside sees it: a value, or the cells behind a reference.
#[derive(Debug, Drop)]
pub enum Piece {
    Value(i128),
    Cells(Seq<i128>),
}

/// Why a run of C text has no defined meaning.
#[derive(Clone, Copy, Debug, Drop, PartialEq, Eq)]
pub enum Reason {
    SignedOverflow,
    DivZero,
    Shift,
    Dead,
    Bounds,
    BadAccess,
    Indeterminate,
    ConstWrite,
    NoValue,
    Implementation,
}

/// How a run comes out: its script is done, a check failed (with its site's number), an import had no reply or one
/// that does not fit, its steps are used up, or it has no defined meaning.
#[derive(Clone, Copy, Debug, Drop, PartialEq, Eq)]
pub enum End {
    Ended,
    Stopped(u32),
    NoReply,
    BadReply,
    Going,
    Undefined(Reason),
}

/// All that a run shows: its events in order, its end, and the cells of each area of the module.
#[derive(Debug, Drop)]
pub struct Outcome {
    pub events: Seq<Event>,
    pub end: End,
    pub areas: Seq<AreaCells>,
}

/// The cells of one area, in order of place.
#[derive(Debug, Drop)]
pub struct AreaCells {
    pub name: Word,
    pub cells: Seq<i128>,
}
