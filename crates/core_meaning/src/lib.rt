//! What a resolved module does: the meaning of every form of the source, step for step, and the laws of its runs.
//!
//! The meaning is a definition and no code: `run_src` in `specs/Run.antt`, over a state (`State`, `Areas`) and parts of runs that
//! count their steps. The functions here do nothing: each carries a theorem, which a caller has after the call.
#![tactic(auto)]

mod laws;

pub use laws::{
    area_examples, area_laws, condition_examples, driver_examples, expression_examples,
    expressions_change_nothing, filled_values_hold, import_examples, loop_examples,
    operator_examples, order_examples, runs_obey_their_laws,
};
