//! Parts of statements, as they are handed on before the tree around them is built.

use c_ast::{CCall, CExpr, CInit};
use c_expression_parser::Side;
use iv_words::Word;

/// An expression or a call.
pub type ValueOrCall = Side<CExpr, CCall>;

/// A name that holds a value or a pointer to a scalar, and that value.
pub type Held = ((Option<bool>, Word), ValueOrCall);

/// A name that holds a pointer to a struct, and that pointer.
pub type HeldPointer = ((bool, Word), ValueOrCall);

/// The name of an object, and its initializer.
pub type Declared = (Word, Option<CInit>);
