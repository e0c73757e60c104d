//! Reads expressions: recursive descent over slices of tokens, each function as its reader in the grammar.
#![tactic(auto)]

mod expr;
mod fault;
mod leaf;
mod operator;
mod parts;
mod primary;
mod token;

pub use expr::expression;
pub use fault::Fault;
pub use parts::postfix;
pub use primary::within;
pub use token::{
    int_kind, keyword, mark, name, number, span_of, starts_key, starts_mark, starts_name, word,
};
