//! The runner of resolved modules: a walk over the core's trees that shows what `run_src` says.
#![tactic(auto)]

mod areas;
mod bounds;
mod entries;
mod find;
mod procedures;
mod ready;
mod start;
mod walk;

pub use ready::{Ready, RunError, prepare};
