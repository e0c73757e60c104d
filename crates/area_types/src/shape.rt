use crate::area::ValueType;
use iv_words::{Box, Word};

/// The shape of an area as a text names it: lengths as they are written, and structs by name.
#[derive(Drop)]
pub enum AreaShape {
    Stored(ValueType),
    Array(u64, Box<AreaShape>),
    Struct(Word),
}
