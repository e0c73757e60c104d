//! The first broken rule of a module: items one after another, each after what the earlier ones declare.
#![tactic(auto)]

mod boundaries;
mod cells;
mod contracts;
mod declaring;
mod fields;
mod headers;
mod items;
mod module;
mod regions;
mod rules;
mod sizes;

pub use declaring::declare;
pub use module::{first_fault, names_in};
pub use regions::regions_of;
