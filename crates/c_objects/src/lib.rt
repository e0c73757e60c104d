//! The memory of C in code: objects of a target's types, made of bytes.
#![tactic(auto)]

mod bytes;
mod faults;
mod laid;
mod layout;
mod objects;
mod shape;
mod standing;
mod types;

pub use faults::{Fault, Refusal};
pub use laid::lay_type;
pub use layout::{field_align, field_size, size_of, size_of_shape, up};
pub use objects::{Object, Objects};
pub use shape::{Base, Field, ObjectType, Shape};
pub use types::{find_type, make_types, type_of};
