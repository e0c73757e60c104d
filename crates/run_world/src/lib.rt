//! What runs of both languages have besides their state, in code: the steps that are left, the events so far, the replies to come,
//! and why a part of a run did not finish.
#![tactic(auto)]

mod fitting;
mod stopped;
mod world;

pub use fitting::values_fit;
pub use stopped::{Halt, Stopped, end_after, shows_areas};
pub use world::World;
