//! Writes a unit of the C subset as its text.
//!
//! One small function for each form puts its pieces, and a buffer hands them on to the sink as few large ones.
#![tactic(auto)]

mod braces;
mod decl;
mod expr;
mod gathered;
mod init;
mod pending;
mod pieces;
mod stmt;
mod types;
mod unit;

pub use unit::{write_function, write_head, write_unit};
