//! What a module stands for is a valid core, with the names of the text and no deeper.
#![tactic(auto)]

pub mod laws;
