//! Index types: the numbers from 0 to n - 1 for a length n, as a type of its own, so that an index of it never leaves an
//! array of that length. The idea is that of Ivory's `Ix n`.
#![tactic(auto)]

mod index;

pub use index::{in_range, to_index, wrap_index};
