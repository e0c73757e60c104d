/// The eight kinds of whole numbers: unsigned and signed (two's complement) of 8, 16, 32 and 64 bits.
#[derive(Clone, Copy, Debug, Drop, PartialEq, Eq)]
pub enum IntKind {
    U8,
    U16,
    U32,
    U64,
    I8,
    I16,
    I32,
    I64,
}
