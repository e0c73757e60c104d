//! That the surroundings which the proofs of expressions ask for stand in every procedure of every lowered module.
//!
//! The definitions are in `specs`, the lemmas in `proofs`. The functions do nothing: each carries a law, which a caller has after the call.
#![tactic(auto)]

pub mod laws;
