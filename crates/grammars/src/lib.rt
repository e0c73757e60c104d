//! A grammar as one value: a rule for each symbol.
//!
//! `specs/Grammar.antt` has the values, `Spelled` what one spells, `Reader` how it is read, and `Checks` when that is exact: a
//! test of the value that computes, and that lists what is wrong. `proofs/Soundness.antt` has what follows for each grammar that
//! passes: the answers for whole texts are exact, and no text has two trees. It stands on the lemmas of `reading`.
//!
//! The functions do nothing: each carries a theorem on the small grammar of `specs/Example.antt`.
#![tactic(auto)]

mod example;

pub use example::{
    a_text_has_one_tree, clashes_are_named, nested_lists_are_parsed_exactly,
    small_texts_are_parsed_so,
};
