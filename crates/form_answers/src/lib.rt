//! What the guards and the values of each form on numbers come to in C, where the operands stand exactly for numbers.
//!
//! The definitions are in `specs`, over any state of a program, the lemmas in `proofs`. The functions do nothing: each carries laws, which a
//! caller has after the call.
#![tactic(auto)]

pub mod laws;
