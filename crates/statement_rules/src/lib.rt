//! The first broken rule of an area, a statement and a block. What a statement names is in scope up to the end of its block.
#![tactic(auto)]

mod areas;
mod blocks;
mod call_types;
mod falling;
mod parts;
mod rules;
mod scope;

pub use areas::{area_fault, area_within_type_fault, held_rule, words_of};
pub use blocks::block_fault;
pub use call_types::call_type;
pub use scope::{add_local, leave, reference_to};
