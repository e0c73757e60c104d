//! The checks that an operator on whole numbers needs in C, and its computation, as expressions of the C subset: a guard has a
//! value for all numbers, and is 0 exactly where its check fails.
#![tactic(auto)]

mod build;
mod computations;
mod guards;
pub mod laws;
mod row;
mod signed;
mod unsigned;

pub use computations::compute;
pub use guards::guard;
