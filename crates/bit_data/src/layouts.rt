//! From the fields that a text asks for to a layout.

ghost use Rattle.std.specs.Prelude.{◌≡◌, ◌≤◌, [], min, if◌then◌else◌, Some, None, IfOk, IsTrue};
ghost use Rattle.std.specs.List.{list_all};
ghost use Rattle.iv_words.specs.Kinds.{width, is_signed};
ghost use Rattle.bit_data.specs.Layouts.{bits_of, has_its_bit, is_filled, is_name_of, first_fault, placed_at, placed_from, laid_out, IsLayout};
ghost use Rattle.bit_data.specs.Answers.{Answers};

use crate::fault::LayoutFault;
use crate::layout::{BitLayout, FieldBits, FieldWish};
use iv_words::{IntKind, Memory, Seq, Word};
use std::alloc::Global;

/// The number of bits of an unsigned kind.
fn unsigned_width(word: IntKind) -> Option<u64>
    ensures { result ≡ (if is_signed word then None else Some (width word)) }
{
    match word {
        IntKind::U8 => Some(8),
        IntKind::U16 => Some(16),
        IntKind::U32 => Some(32),
        IntKind::U64 => Some(64),
        IntKind::I8 | IntKind::I16 | IntKind::I32 | IntKind::I64 => None,
    }
}

/// The number of bits of all fields, or the greatest number of 64 bits where they are more.
fn bits_of(fields: &[FieldWish]) -> u64
    ensures { result ≡ min (bits_of fields.now) 18_446_744_073_709_551_615 }
{
    let mut bits: u64 = 0;
    for field in fields {
        bits = bits.saturating_add(field.width);
    }
    bits
}

fn is_filled(word: IntKind, fields: &[FieldWish]) -> bool
    ensures { result ≡ is_filled word fields.now }
{
    match unsigned_width(word) {
        Some(width) => bits_of(fields) == width,
        None => false,
    }
}

fn is_name_of(fields: &[FieldWish], name: &Word) -> bool
    ensures { result ≡ is_name_of fields.now name.now }
{
    for field in fields {
        if field.name == *name {
            return true;
        }
    }
    false
}

/// The first fault of a field. Each field before it has a bit, so that its number is small.
fn first_fault(fields: &[FieldWish]) -> Option<LayoutFault>
    requires { bits_of fields.now ≤ 64 }
    ensures { result ≡ first_fault [] fields.now }
{
    for at in 0..fields.len() {
        if is_name_of(&fields[..at], &fields[at].name) {
            return Some(LayoutFault::TwiceNamed(at as u32));
        }
        if fields[at].width == 0 {
            return Some(LayoutFault::EmptyField(at as u32));
        }
    }
    None
}

/// The field, from the bit `low` on.
fn placed_at(alloc: Global, low: u32, field: &FieldWish) -> Result<FieldBits, Memory>
    requires { field.now.width ≤ 64 }
    ensures { IfOk result (λ bits. bits ≡ placed_at low field.now) }
{
    Ok(FieldBits {
        name: field.name.copy(alloc)?,
        low,
        width: field.width as u32,
        truth: field.truth,
    })
}

fn placed(alloc: Global, fields: &[FieldWish]) -> Result<Seq<FieldBits>, Memory>
    requires { bits_of fields.now ≤ 64 }
    ensures { IfOk result (λ placed. placed ≡ placed_from 0 fields.now) }
{
    let mut placed = Seq::with_capacity(alloc, fields.len())?;
    let mut low: u32 = 0;
    for field in fields {
        placed.push(placed_at(alloc, low, field)?)?;
        low += field.width as u32;
    }
    Ok(placed)
}

/// The layout of a word for these fields in order, the first in the lowest bits. Its name is empty.
///
/// Errors: `WidthSum` where the word is signed or the widths do not add up to its width; else, at the first field where
/// either is so, `TwiceNamed` where a field before it has its name, or `EmptyField` where it has no bits.
pub fn check_layout(
    alloc: Global,
    word: IntKind,
    fields: &Seq<FieldWish>,
) -> Result<BitLayout, LayoutFault>
    requires { IsTrue (list_all has_its_bit fields.now) }
    ensures answer { Answers result (laid_out word fields.now) }
    ensures layout { IfOk result (λ layout. IsLayout layout) }
{
    if !is_filled(word, fields.as_slice()) {
        return Err(LayoutFault::WidthSum);
    }
    if let Some(fault) = first_fault(fields.as_slice()) {
        return Err(fault);
    }
    let placed = placed(alloc, fields.as_slice())?;
    Ok(BitLayout {
        name: Word::new(alloc),
        word,
        fields: placed,
    })
}
