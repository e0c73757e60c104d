//! C text in: the unit that bytes spell with names and types right, or their fault and its place.
//!
//! `c_text` says what reads back, and what the fault of other bytes is. The parser (`c_parser`) answers of pieces as the grammar
//! does, and `c_rules` tells the first rule that a unit breaks. Here both are joined: `proofs/Begun.antt` has what begins a unit,
//! in bytes and in pieces, and `proofs/OpenedLevels.antt` that the brackets of the bytes are those of the grammar.
#![tactic(auto)]

mod laws;
mod read;

pub use c_ast::{CUnit, Target};
pub use c_text::{CFault, CWhy};
pub use laws::{small_texts_are_answered_so, texts_read_or_have_a_fault};
pub use read::{ReadFault, read_unit};
