//! The C of statements follows them.
//!
//! The definitions are in `specs`, the lemmas in `proofs`. The functions do nothing: each carries a law.
#![tactic(auto)]

pub mod laws;
