//! The values of C, their conversions, and what the operators give on them, in code and exact to the meaning of C.
#![tactic(auto)]

mod alike;
mod arithmetic;
mod bitwise;
mod classes;
mod constants;
mod conversions;
mod on_one;
mod on_two;
mod shifts;
mod types;
mod values;

pub use constants::constant_value;
pub use conversions::{as_assigned, as_kind, as_pointer, base_ref};
pub use on_one::{is_true, tested, truth, unary};
pub use on_two::{binary, decided};
pub use values::{Address, Trouble, Value};
