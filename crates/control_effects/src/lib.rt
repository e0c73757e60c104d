//! Paths through a block: whether it falls through, and which of its statements is reached.
#![tactic(auto)]

mod breaks;
mod falling;
pub mod laws;
mod unreached;

pub use falling::falls_through;
pub use unreached::first_unreached;
