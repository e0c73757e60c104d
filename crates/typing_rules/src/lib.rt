//! Which modules are well typed, and the core that each stands for.
#![tactic(auto)]

pub mod laws;
