//! Reads types, expressions, arguments and initializers of C: recursive descent over the bytes, each function as its reader in the
//! grammar.
#![tactic(auto)]

mod exprs;
mod inits;
mod nodes;
mod operator;
mod parts;
mod types;

pub use exprs::{expression, in_parens, number_expression, pointer_in_parens, steps};
pub use inits::{arguments_in_parens, initializer};
pub use nodes::{named_place, pointed_place, read_node};
pub use parts::{Side, Step};
pub use types::{
    base, held, held_pointer, pointer_name, scalar_type, star_name, tag, typed_name, value_type,
};
