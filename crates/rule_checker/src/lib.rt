//! The first broken rule of an expression, an initializer and a call, and the types and areas that a text names. The rules are asked at
//! each node, the outer before the inner; a type is that of the form, whether or not a rule is broken within.
#![tactic(auto)]

mod calls;
mod declare;
mod expressions;
mod fault;
mod forms;
mod inits;
mod items;
mod links;
mod lookups;
mod matched;
mod names;
mod operators;
mod rules;
mod scope;
mod settled;
mod texts;
mod types;
mod typing;
mod wants;

pub use calls::{call_fault, known, learn, split_param};
pub use declare::{add_area, add_bits, add_callee, add_struct, no_items};
pub use expressions::expression_fault;
pub use fault::{RuleFault, at_place, either};
pub use inits::init_fault;
pub use items::{AreaEntry, CalleeEntry, CalleeNames, Items};
pub use lookups::{callee_named, has_word, is_area, is_bits, is_callee, is_struct};
pub use matched::Matched;
pub use names::{index_type, is_length, is_taken, type_if_any};
pub use rules::{given_reference, when};
pub use scope::{Context, Local};
pub use settled::is_settled;
pub use texts::{area_in, type_in};
pub use types::{Reference, TypeRef, is_plain, reference_of, same_area, stored_type};
pub use typing::{own_type, type_of};
pub use wants::{Want, of_stored};
