//! A module of the form of a text is well typed or breaks a rule, and it stands for one core at most.
#![tactic(auto)]

pub mod laws;
