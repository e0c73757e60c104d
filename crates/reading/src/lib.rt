//! How a text is read from left to right, for any type of token.
//!
//! A grammar says which rows it spells, tokens with the nesting at each. A reader is a total function on lists of tokens,
//! made of a few combinators. One fact, that the reader is `Good` for the rule, goes from combinator to combinator; from
//! that of a whole grammar comes all that its parser promises: it answers a tree exactly where the text is spelled within
//! the limit of nesting, the first unexpected token, or the first token that nests too deep, and no text has two trees.
//!
//! The definitions are in `specs`, the lemmas in `proofs`, and docs/READING.md tells how a grammar is written with them.
//! The functions do nothing: each carries a theorem on the small grammar of specs/Example.antt.
#![tactic(auto)]

mod example;

pub use example::{
    a_text_has_one_tree, nested_lists_are_parsed_exactly, small_texts_are_parsed_so,
};
