//! The values of expressions of resolved modules in code, and the conditions that a run tests.
#![tactic(auto)]

mod answers;
mod chains;
mod conditions;
mod evaluation;
mod fields;
mod operands;
mod reads;
mod scope;

pub use conditions::{choose, test, test_all};
pub use evaluation::{eval, eval_all};
