//! The first value of each cell of an area of the module, from its initializer.
#![tactic(auto)]

mod constants;
mod values;
mod zeros;

pub use values::first_values;
