//! The nodes in whose order the first fault of a module is found stand in the order of the text.
#![tactic(auto)]

pub mod laws;
