//! No run of a valid core ever reads a reference whose area is gone.
#![tactic(auto)]

pub mod laws;
