//! Reads statements and blocks of C: recursive descent over the bytes, each function as its reader in the grammar.
#![tactic(auto)]

mod declared;
mod parts;
mod simple;
mod stmts;

pub use stmts::lines;
