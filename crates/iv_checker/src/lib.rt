//! The checker: the core that a module stands for, or the first rule that it breaks.
#![tactic(auto)]

mod answer;
mod checker;
mod table;

pub use answer::CheckError;
pub use checker::check;
