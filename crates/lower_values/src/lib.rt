//! The C of expressions: statements before a value, and the value.
#![tactic(auto)]

mod laws;

pub use laws::expression_examples;
