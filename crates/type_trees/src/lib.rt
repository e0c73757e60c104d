//! Types as trees of scalars, arrays and structs: their parts, where their scalars stand in memory, and their values.
//!
//! The trees are generic in the scalars and in the names of structs and members, so that a language's types and those of
//! the C that it is compiled to are instances of one family. The definitions are in `specs`, the lemmas in `proofs`. The
//! functions do nothing: each carries a law, which a caller has after the call.
#![tactic(auto)]

mod laws;

pub use laws::{
    layout_examples, layout_laws, members_stand_least, multiple_examples, part_laws, tree_examples,
    value_examples, value_laws,
};
