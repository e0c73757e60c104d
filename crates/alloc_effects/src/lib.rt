//! What a block does besides computing: whether it allocates, breaks or returns, and which of these it may do.
#![tactic(auto)]

mod allowed;
mod effects;
mod laws;

pub use allowed::{Allowed, Narrowing, in_loop, narrow};
pub use effects::{Effects, effects_of};
pub use laws::effect_examples;
