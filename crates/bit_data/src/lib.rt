//! Bit data: words whose bits are divided among named fields. Which divisions there are, what number a field holds, and the
//! word with another number in a field. The idea is that of Ivory's bit data.
#![tactic(auto)]

mod copies;
mod fault;
mod fields;
mod laws;
mod layout;
mod layouts;

pub use fault::{LayoutFault, TooWide};
pub use fields::{field_of, with_field};
pub use laws::{changed_words, faults_of_fields, fields_of_words};
pub use layout::{BitLayout, FieldBits, FieldWish};
pub use layouts::check_layout;
