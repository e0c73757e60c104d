//! The state of a running unit of C in code, and the values of its expressions and places.
#![tactic(auto)]

mod changes;
mod evaluation;
mod following;
mod form;
mod lvalues;
mod names;
mod program;
mod state;
mod types;
mod typing;

pub use evaluation::{eval, eval_all, eval_place};
pub use lvalues::{Lvalue, trouble_of};
pub use program::Program;
pub use state::{Local, Slot, State};
