//! Parts of expressions, as they are handed on before the tree around them is built.

use c_ast::{CBinary, CExpr, CType};
use iv_words::Word;

/// One of two.
#[derive(Drop)]
pub enum Side<A, B> {
    Left(A),
    Right(B),
}

/// `.NAME`, and the index behind it where there is one.
#[derive(Drop)]
pub struct Step {
    pub name: Word,
    pub index: Option<CExpr>,
}

/// What stands in two parentheses: a type, `*E`, or the rest of a value.
#[derive(Drop)]
pub enum Inside {
    Type(CType),
    Pointer(CExpr),
    Value(CExpr),
}

/// ` op E` or ` ? E : E`.
pub type Tail = Side<(CBinary, CExpr), (CExpr, CExpr)>;
