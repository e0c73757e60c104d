//! The meaning of the C subset (ISO/IEC 9899:1999): what a run of a unit does, step for step.
#![tactic(auto)]

pub mod laws;
