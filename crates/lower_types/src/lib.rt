//! What a module declares, in C: its names, types, constants and first values, and the declarations of a unit besides its functions.
#![tactic(auto)]

mod laws;

pub use laws::declaration_examples;
