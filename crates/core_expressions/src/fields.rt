//! The fields of bit data, for words and numbers that the code follows.

ghost use Rattle.std.specs.Prelude.{◌≡◌};
ghost use Rattle.bit_data.specs.Fields as fields;
ghost use Rattle.bit_data.specs.Layouts.{IsLayout};
ghost use Rattle.core_expressions.specs.Forms.{NoHalt};
ghost use Rattle.core_expressions.specs.Operands.{set_by};

use crate::answers::not_followed;
use bit_data::BitLayout;
use core_tree::SiteKind;
use run_world::Stopped;

/// The number in a field of a word.
pub(crate) fn field_in(layout: &BitLayout, field: u32, word: i128) -> Result<i128, Stopped>
    requires { IsLayout layout.now }
    ensures { NoHalt result (λ v. v ≡ fields.field_of layout.now field word) }
{
    if field as usize >= layout.fields.len() || !int_ops::fits(layout.word, word) {
        return Err(not_followed());
    }
    Ok(bit_data::field_of(layout, field, word))
}

/// The word with the number in the field, where the field has room for it.
pub(crate) fn with_field(
    layout: &BitLayout,
    field: u32,
    word: i128,
    x: i128,
) -> Result<Result<i128, SiteKind>, Stopped>
    requires { IsLayout layout.now }
    ensures { NoHalt result (λ answer. answer ≡ set_by layout.now field word x) }
{
    if field as usize >= layout.fields.len() || !int_ops::fits(layout.word, word) || x < 0 {
        return Err(not_followed());
    }
    match bit_data::with_field(layout, field, word, x) {
        Ok(v) => Ok(Ok(v)),
        Err(_) => Ok(Err(SiteKind::Cast)),
    }
}
