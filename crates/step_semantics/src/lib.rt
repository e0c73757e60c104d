//! What it is to run with a number of steps left.
//!
//! The meaning of a program is here a function from a number of steps to what the outside sees within them. This crate
//! has what such functions are made of, for the source language and for C alike: parts of a run and the ways to put them
//! together, the call of an import, the entry calls of a script; the laws that each way keeps; and what it is that one
//! run goes along with another, so that a translation refines its source. Its definitions are in `specs`, its lemmas in
//! `proofs`. The functions do nothing: each carries a theorem, which a caller has after the call.
#![tactic(auto)]

mod control;
mod imports;
mod outcomes;
mod refinement;
mod runs;
mod steps;

pub use control::{frames_are_popped, own_areas_end, turns_are_counted};
pub use imports::{a_reply_is_taken, an_import_call_is_seen, no_reply_is_wanted};
pub use outcomes::{areas_are_hidden, ends_say_what_came, halts_are_told_apart};
pub use refinement::{safe_procedures_make_safe_runs, sixteen_steps_suffice};
pub use runs::{an_entry_call_is_a_step_and_is_seen, no_call_is_no_step, runs_keep_the_laws};
pub use steps::{ticks_are_steps, turns_take_a_step};
