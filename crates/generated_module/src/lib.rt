//! The text of a module of any number of procedures, to try the compiler on long texts.
#![tactic(auto)]

mod text;

pub use text::generate;
