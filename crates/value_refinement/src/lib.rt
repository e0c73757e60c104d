//! The C of each expression follows it: in related states, step for step, to a value that it stands for.
//!
//! The definitions are in `specs`, the lemmas in `proofs`, one file for each form. The functions do nothing: each carries a law.
#![tactic(auto)]

pub mod laws;
