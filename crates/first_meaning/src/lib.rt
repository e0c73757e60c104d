//! What a module does: the meaning of the source, step for step, and the laws of its runs.
#![tactic(auto)]

mod laws;

pub use laws::{calls_take_steps_and_are_seen, runs_are_defined, runs_obey_their_laws};
