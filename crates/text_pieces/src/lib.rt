//! Texts that are put into a sink piece by piece, and arrive there as few large ones.
#![tactic(auto)]

mod gathered;
mod pending;
mod pieces;

pub use gathered::Gathered;
pub use pieces::Pieces;
