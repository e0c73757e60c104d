//! Cuts the text of a module into tokens. A text is a row of pieces (white space, comments and tokens), each the longest
//! that the language allows at its place; where there is no such row, the answer is the first fault and its place.
#![tactic(auto)]

mod byte;
mod cut;
mod fault;
mod key;
mod keyword;
mod mark;
mod number;
mod piece;
mod scan;
mod symbol;
mod token;

pub use cut::{SOURCE_LIMIT, lex, reads_in_one_way};
pub use fault::LexFault;
pub use key::Key;
pub use mark::Mark;
pub use token::{Token, TokenKind};
