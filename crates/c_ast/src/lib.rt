//! The C subset (ISO/IEC 9899:1999): its trees and what they say, its types on a target and their layout, and what a unit exports.
#![tactic(auto)]

mod exports;
mod expr;
pub mod laws;
mod layout;
mod numbers;
mod stmt;
mod target;
mod types;
mod unit;

pub use exports::c_exports;
pub use expr::{CBinary, CExpr, CInit, CPlace, CUnary, Suffix};
pub use layout::{align_of, offset_of, size_of};
pub use numbers::{common, convert, promote};
pub use stmt::{CCall, CStmt};
pub use types::{Arith, CBase, CKind, CScalar, CType, Target};
pub use unit::{CExtern, CFunction, CMember, CObject, CParam, CStruct, CUnit};
