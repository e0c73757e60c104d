//! When the objects of C hold the areas of the source, and what each act on both sides keeps of it.
//!
//! The definitions are in `specs`, over lists of areas and any memory that keeps the laws of `c_memory`, the lemmas in `proofs`. The functions
//! do nothing: each carries a law, which a caller has after the call.
#![tactic(auto)]

pub mod laws;
