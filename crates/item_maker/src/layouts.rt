//! The layouts of bit data.

ghost use Rattle.std.specs.Prelude.{◌≡◌, [], IfOk, IsTrue, All, map};
ghost use Rattle.std.specs.List.{list_all};
ghost use Rattle.ivory_tree.specs.Formed.{FormedBitField};
ghost use Rattle.bit_data.specs.Layouts as layouts;
ghost use Rattle.typing_rules.specs.ItemCores.{layout_or, layout_core};
ghost use Rattle.typing_rules.specs.Items.{wish_of};

use bit_data::{BitLayout, FieldWish, LayoutFault, check_layout};
use iv_words::{IntKind, Memory, Seq, Word};
use ivory_tree::{BitField, BitsItem};
use std::alloc::Global;

fn wish(alloc: Global, field: &BitField) -> Result<FieldWish, Memory>
    ensures { IfOk result (λ w. w ≡ wish_of field.now) }
{
    Ok(FieldWish {
        name: field.name.text.copy(alloc)?,
        width: field.width,
        truth: field.truth,
    })
}

fn wishes(alloc: Global, fields: &[BitField]) -> Result<Seq<FieldWish>, Memory>
    ensures { IfOk result (λ ws. ws ≡ map wish_of fields.now) }
{
    let mut wishes = Seq::with_capacity(alloc, fields.len())?;
    for field in fields {
        wishes.push(wish(alloc, field)?)?;
    }
    Ok(wishes)
}

fn no_fields(alloc: Global, word: IntKind) -> BitLayout
    ensures { result ≡ record { name = []; word = word; fields = [] } }
{
    BitLayout {
        name: Word::new(alloc),
        word,
        fields: Seq::new(alloc),
    }
}

/// The layout of the word for these fields; no field where there is none.
fn laid_out(alloc: Global, word: IntKind, fields: &Seq<FieldWish>) -> Result<BitLayout, Memory>
    requires { IsTrue (list_all layouts.has_its_bit fields.now) }
    ensures { IfOk result (λ l. l ≡ layout_or word (layouts.laid_out word fields.now)) }
{
    match check_layout(alloc, word, fields) {
        Ok(layout) => Ok(layout),
        Err(LayoutFault::Memory) => Err(Memory),
        Err(LayoutFault::WidthSum) => Ok(no_fields(alloc, word)),
        Err(LayoutFault::TwiceNamed(_)) => Ok(no_fields(alloc, word)),
        Err(LayoutFault::EmptyField(_)) => Ok(no_fields(alloc, word)),
    }
}

/// The layout of bit data, of which each truth has one bit.
#[tactic(auto, using(crate::proofs::Wishes::truths_have_a_bit))]
pub(crate) fn layout(alloc: Global, item: &BitsItem) -> Result<BitLayout, Memory>
    requires { All FormedBitField item.now.fields }
    ensures { IfOk result (λ l. l ≡ layout_core item.now) }
{
    let wishes = wishes(alloc, item.fields.as_slice())?;
    let laid = laid_out(alloc, item.word, &wishes)?;
    let name = item.name.text.copy(alloc)?;
    Ok(BitLayout {
        name,
        word: laid.word,
        fields: laid.fields,
    })
}
