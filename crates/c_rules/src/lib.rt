//! The names and types of a unit of the C subset: the first place of its text that breaks one of their rules.
#![tactic(auto)]

mod braces;
mod decl;
mod declarations;
mod params;
mod sizes;
mod stmt;
mod structs;
mod unit;

pub use unit::first_broken;
