//! What a statement of a resolved module does by itself, and what the outside sees of calls of imports and gives back.
#![tactic(auto)]

mod imports;
mod initial;
mod nodes;
mod parts;
mod pieces;
mod replies;
mod shapes;
mod simple;
mod stores;

pub use imports::call_import;
pub use parts::{Control, Run, formless};
pub use simple::{
    alloc_area, assert_true, break_off, copy_area, ensured, let_result, let_value, return_value,
    store_value,
};
