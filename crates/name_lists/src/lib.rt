//! Names in their order, among which the first place of each is found by hashing.
#![tactic(auto)]

mod list;

pub use list::NameList;
