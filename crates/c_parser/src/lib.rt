//! Reads the bytes of a C text as a unit of the subset: recursive descent over the bytes, each function as its reader in the
//! grammar.
#![tactic(auto)]

mod answer;
mod function;
mod hidden;
mod item;
mod parts;
mod unit;

pub use answer::{UnitFault, parse_unit};
