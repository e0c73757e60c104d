//! Values with their types, and why there may be none.

use c_ast::CKind;
use c_objects::Base;
use run_records::Reason;

/// Where a pointer points to: an object, and an offset in it.
#[derive(Clone, Copy, Drop)]
pub struct Address {
    pub object: usize,
    pub offset: u64,
}

/// A number with its type, or a pointer with its flag and base.
#[derive(Clone, Copy, Drop)]
pub enum Value<'a> {
    Num(CKind, i128),
    Ptr(bool, Base<'a>, Address),
}

/// Why something has no meaning: C99 gives it none, or no rule of the meaning speaks of it; or there is no memory for it.
#[derive(Clone, Copy, Debug, Drop, PartialEq, Eq)]
pub enum Trouble {
    Undefined(Reason),
    Stuck,
    Memory,
}
