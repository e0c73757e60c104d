//! What the text of a module is: too long, at fault at a place, or the text of a tree.
#![tactic(auto)]

mod fault;
mod laws;
mod read;

pub use fault::{Fault, TextFault, Why};
pub use ivory_lexer::SOURCE_LIMIT;
pub use laws::each_text_has_one_verdict;
pub use read::read_module;
