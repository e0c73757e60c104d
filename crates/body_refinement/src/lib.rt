//! The C of a body follows it, statement by statement.
//!
//! The definitions are in `specs`, the lemmas in `proofs`. The functions do nothing: each carries a law.
#![tactic(auto)]

pub mod laws;
