use iv_words::{IntKind, Seq, Word};

/// A field as a text asks for it: how many bits it has, and whether it is a truth, which has one bit.
#[derive(Drop)]
pub struct FieldWish {
    pub name: Word,
    pub width: u64,
    pub truth: bool,
}

/// A field of a layout: `width` bits from the bit `low` on, where bit 0 is the lowest.
#[derive(Drop)]
pub struct FieldBits {
    pub name: Word,
    pub low: u32,
    pub width: u32,
    pub truth: bool,
}

/// A word and the fields that its bits are divided among, in order from the lowest bit.
#[derive(Drop)]
pub struct BitLayout {
    pub name: Word,
    pub word: IntKind,
    pub fields: Seq<FieldBits>,
}
