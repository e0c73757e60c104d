//! Tables of what names were declared as, and of their places in a row: a name is found by hashing.
#![tactic(auto)]

mod row;
mod scoped;
mod table;

pub use row::NameRow;
pub use scoped::ScopeTable;
pub use table::NameTable;
