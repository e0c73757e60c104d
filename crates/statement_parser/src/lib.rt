//! Reads types, areas, initializers, calls, statements and blocks: recursive descent over slices of tokens, each function as
//! its reader in the grammar.
#![tactic(auto)]

mod area;
mod call;
mod init;
mod list;
mod simple;
mod stmt;
mod types;

pub use area::area_text;
pub use init::first_value;
pub use list::{Part, Repeated, as_many, at_least_one, in_braces, in_parens, with_commas};
pub use simple::{area_and_value, semicolon};
pub use stmt::block;
pub use types::{optional_keyword, type_text};
