//! The C of statements, procedures and whole modules: `lowered` is the unit that the compiler makes.
#![tactic(auto)]

mod laws;

pub use laws::procedure_examples;
