//! The memory of C: objects made of bytes, and what reads, writes, declarations and the ends of blocks do to them.
//!
//! The definitions are in `specs`, generic in the scalars of a target, the lemmas in `proofs`. `Abstract` has the operations of
//! a memory and its laws with no byte in them, which is all that the crates above know. The functions do nothing: each carries
//! a law, which a caller has after the call.
#![tactic(auto)]

mod laws;

pub use laws::{
    access_examples, initializer_examples, initializer_laws, kinds_are_sound, memory_is_lawful,
    number_examples, numbers_are_faithful, padding_examples, parts_stand, values_are_held,
};
