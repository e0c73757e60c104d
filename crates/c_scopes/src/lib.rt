//! The names that are in scope at a place of a unit of the C subset, the types of values and places that the rules ask for, and how
//! far a text was gone through.
#![tactic(auto)]

mod names;
mod shapes;
mod spelled;
mod structs;
mod tables;
mod types;
mod walk;

pub use names::{Entity, Names, Params, Signature};
pub use shapes::{
    PlaceType, Shape, assigned_scalar, can_be_assigned, can_be_read, has_address, has_member,
    is_array, is_struct, of_address, of_element, of_member, of_pointee, of_read, shape_of,
    times_shape,
};
pub use spelled::{binary_name, gap_name, scalar_name, star_name, suffix_name, unary_name};
pub use structs::{Structs, all_structs};
pub use tables::{MemberTable, StructTable, members_of};
pub use types::{
    Base, ValueType, Wanted, base_of, cast_is_allowed, constant, is_number, is_pointer,
    may_be_given, of_binary, of_cast, of_choice, of_unary, wanted_of,
};
pub use walk::Walk;
