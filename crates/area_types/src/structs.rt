use crate::area::Area;
use iv_words::{Seq, Word};

/// A field of a struct.
#[derive(Drop)]
pub struct FieldDef {
    pub name: Word,
    pub area: Area,
}

/// A struct, with its fields in order of declaration.
#[derive(Drop)]
pub struct StructDef {
    pub name: Word,
    pub fields: Seq<FieldDef>,
}
