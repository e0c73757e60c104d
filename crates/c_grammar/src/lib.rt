//! The C subset as one grammar over the pieces of a text: runs of letters, digits and underscores, runs of blanks, and single
//! other bytes.
//!
//! What the bytes of a unit are is said by `c_text`: `unit_text` and `InSubset`. Here is what a reader goes by, and that it says
//! the same. `specs/Pieces.antt` cuts a text, `Kinds` tells its pieces apart, `Symbols` has what stands between brackets, and the
//! rules are in `TypeRules`, `ExpressionRules`, `StatementRules` and `UnitRules`; `Subset` puts them together.
//!
//! The functions do nothing: each carries a theorem. A unit's text is spelled as that unit, what is spelled as a unit is its
//! text, and what is answered of the pieces of a text is exact: the unit, the first piece that no unit has there, or the first
//! bracket too many.
//!
//! In `proofs`, `Written..` puts a row together for each form of a unit, and `Says..` tells for each rule what its rows are.
#![tactic(auto)]

mod laws;

pub use laws::{
    pieces_are_the_text, pieces_spell_one_unit, small_texts_are_read_so, spelled_bytes_are_texts,
    texts_are_spelled, texts_tell_units_apart, units_are_read_exactly,
};
