//! The first fault of a module: the first place in the order of the text at which one of the 44 rules is broken, and the least such rule.
#![tactic(auto)]

pub mod laws;
