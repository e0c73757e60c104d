//! The runner of units of C: a walk over the unit's trees that shows what `run_c` says.
#![tactic(auto)]

mod areas;
mod entries;
mod find;
mod functions;
mod leaves;
mod ready;
mod start;
mod walk;

pub use ready::{CReady, RunError, prepare_c};
