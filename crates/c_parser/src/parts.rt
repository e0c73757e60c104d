//! Parts of units, as they are handed on before the unit is built.

use c_ast::{CExtern, CFunction, CObject, CParam, CStmt, CStruct};
use iv_words::Seq;

/// The parameters and the body of a function.
pub type Defined = (Seq<CParam>, Seq<CStmt>);

/// A struct, an extern, an object or a function.
#[derive(Drop)]
pub enum Item {
    Struct(CStruct),
    Extern(CExtern),
    Object(CObject),
    Function(CFunction),
}

/// Up to which of the items a unit has come: structs, externs, objects, functions.
#[derive(Clone, Copy, Drop)]
pub enum Stage {
    Structs,
    Externs,
    Objects,
    Functions,
}
