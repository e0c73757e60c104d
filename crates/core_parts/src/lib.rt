//! What the core of an expression is made of: types, numbers of fields, checks with their numbers, and nodes.
#![tactic(auto)]

mod kinds;
pub mod nodes;
mod operators;
mod sites;
mod types;

pub use kinds::{
    check_unless, first_token, has_values_of, index_checks, name_bytes, operator_checks,
    prefix_checks, set_checks,
};
pub use operators::{gives_truth, is_logic, level, result_type};
pub use sites::check;
pub use types::{
    area_position, bit_field_named, bit_field_number, bits_number, element_type, field_type,
    length_behind, new_type, number, owned, stored_type, struct_field_number, word_type,
};
