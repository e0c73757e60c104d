//! What every layer is written with: words, lists and boxes that contracts see as what they hold, places in a text, and
//! the kinds of whole numbers.
#![tactic(auto)]

mod boxed;
mod copied;
mod kind;
mod lines;
mod memory;
mod place;
mod seq;
mod word;

pub use boxed::Box;
pub use copied::Copied;
pub use kind::IntKind;
pub use lines::line_of;
pub use memory::Memory;
pub use place::{Name, Span};
pub use seq::Seq;
pub use word::Word;
