//! The sites of a module: its checks in the order of the tokens that carry them.
#![tactic(auto)]

mod exprs;
mod procs;
mod row;
mod site;
mod stmts;
mod table;

pub use site::Site;
pub use table::site_table;
