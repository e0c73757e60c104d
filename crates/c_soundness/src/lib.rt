//! A right unit of the C subset is never stuck: names and types that keep the rules of the text leave no run without a meaning of the
//! standard's own, a value or one of the reasons for which there is none.
#![tactic(auto)]

mod laws;

pub use laws::{never_stuck, rule_examples};
