use crate::region::Region;
use iv_words::{Box, IntKind};

/// The type of one value: a truth, a whole number, an index of a length, bits of the word of that number, or a reference.
#[cycle(area)]
#[derive(Drop, PartialEq, Eq)]
pub enum ValueType {
    Bool,
    Int(IntKind),
    Ix(u32),
    Bits(u32),
    Ref(RefType),
}

/// The type of a reference: whether it only reads, the region that it may lead to, and the area behind it.
#[cycle(area)]
#[derive(Drop, PartialEq, Eq)]
pub struct RefType {
    pub constant: bool,
    pub region: Region,
    pub area: Area,
}

/// The type of an area of memory: one stored value, an array of a length, or the struct of that number in a table.
#[cycle(area)]
#[derive(Drop, PartialEq, Eq)]
pub enum Area {
    Stored(Box<ValueType>),
    Array(u32, Box<Area>),
    Struct(u32),
}
