//! The types that a module names: those of its texts, of its operators, and of the parts of areas and bit data.
#![tactic(auto)]

pub mod laws;
