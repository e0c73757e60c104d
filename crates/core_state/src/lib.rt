//! The state of a run of a resolved module in code: what areas hold and how they are laid out, names, and values.
#![tactic(auto)]

mod changes;
mod held;
mod numbers;
mod program;
mod state;
mod value;
mod written;

pub use held::Held;
pub use numbers::Numbers;
pub use program::Program;
pub use state::{Frame, HeldArea, Name, Slot, State};
pub use value::Value;
pub use written::{Written, tree_of, trees_of};
