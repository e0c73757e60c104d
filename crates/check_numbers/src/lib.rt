//! The checks of a core numbered one after another, in the order in which they stand there.
#![tactic(auto)]

pub mod laws;
