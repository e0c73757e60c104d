//! What single statements and calls of externs do to a running unit of C: declarations, assignments, initializers, and what the
//! outside sees of arguments and gives back.
#![tactic(auto)]

mod arguments;
mod assignment;
mod cells;
mod declarations;
mod externs;
mod initial;
mod numbers;
mod parts;
mod pieces;
mod steps;
mod trouble;

pub use arguments::{Params, as_arguments};
pub use assignment::assign;
pub use declarations::{declaration, object, object_with};
pub use externs::{extern_call, outer_name, stop_call};
pub use initial::{Given, eval_init};
pub use numbers::numbers_of;
pub use parts::{Called, Control, Run};
pub use pieces::values_behind;
pub use steps::{argument_step, truth_step, value_step};
pub use trouble::{answered, given, room};
