//! The cores of statements and blocks. What a statement names is in scope up to the end of its block, and is a local of the procedure for good.
#![tactic(auto)]

mod blocks;
mod forms;
mod nodes;
mod scope;

pub use blocks::block;
pub use scope::{add_name, next_number};
