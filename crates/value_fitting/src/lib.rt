//! What an expression of a valid core comes to, apart from its steps, fits its type.
//!
//! The definitions are in `specs`, the lemmas in `proofs`. The functions do nothing: each carries a law, which a caller has after the call.
#![tactic(auto)]

pub mod laws;
