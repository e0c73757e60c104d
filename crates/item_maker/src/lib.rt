//! The cores of the items of a module, one after another, each after what the earlier ones declare.
#![tactic(auto)]

mod areas;
mod contracts;
mod headers;
mod layouts;
mod making;
mod places;
mod procedures;

pub use making::{Making, item_cores};
