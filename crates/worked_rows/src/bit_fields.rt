ghost use Rattle.std.specs.Prelude.{IfOk, IsTrue};
ghost use Rattle.bit_data.specs.Layouts.{has_its_bit, IsLayout};

use bit_data::{BitLayout, FieldWish, LayoutFault, TooWide, check_layout, field_of, with_field};
use int_ops::fits;
use iv_words::{IntKind, Memory, Seq, Word};
use std::alloc::Global;

/// A field's name of one letter, and its width, or none for a truth.
type Row = (u8, Option<u64>);

fn wish(alloc: Global, row: Row) -> Result<FieldWish, Memory>
    ensures { IfOk result (λ w. IsTrue (has_its_bit w)) }
{
    let (letter, width) = row;
    let name = Word::from_slice(alloc, &[letter])?;
    match width {
        Some(width) => Ok(FieldWish {
            name,
            width,
            truth: false,
        }),
        None => Ok(FieldWish {
            name,
            width: 1,
            truth: true,
        }),
    }
}

fn layout_of(alloc: Global, word: IntKind, rows: &[Row]) -> Result<BitLayout, LayoutFault>
    ensures { IfOk result (λ layout. IsLayout layout) }
{
    let mut wishes = Seq::new(alloc);
    for row in rows {
        let next = wish(alloc, *row)?.copy(alloc)?;
        wishes.push(next)?;
    }
    check_layout(alloc, word, &wishes)
}

/// What the field holds, and what holds `x` there, where there is such a field, word and number.
fn around(layout: &BitLayout, field: u32, v: i128, x: i128) -> Option<(i128, Result<i128, TooWide>)>
    requires { IsLayout layout.now }
{
    if (field as usize) < layout.fields.len() && fits(layout.word, v) && 0 <= x {
        Some((field_of(layout, field, v), with_field(layout, field, v, x)))
    } else {
        None
    }
}

/// `Ctrl : uint8_t { enable : bool, mode : 3, level : 4 }`
const CTRL: [Row; 3] = [(b'e', None), (b'm', Some(3)), (b'l', Some(4))];

#[test]
fn fields_are_read_and_changed(rt: HostRuntime) -> Result<(), LayoutFault> {
    let layout = layout_of(rt.alloc(), IntKind::U8, &CTRL)?.copy(rt.alloc())?;
    for (field, v, x, found) in [
        (0, 0, 1, (0, Ok(1))),
        (1, 1, 5, (0, Ok(11))),
        (1, 11, 7, (5, Ok(15))),
        (2, 11, 2, (0, Ok(43))),
        (1, 255, 0, (7, Ok(241))),
        (1, 0, 8, (0, Err(TooWide { width: 3, x: 8 }))),
        (2, 11, 16, (0, Err(TooWide { width: 4, x: 16 }))),
    ] {
        assert_eq!(rt; around(&layout, field, v, x), Some(found));
    }
    Ok(())
}

fn fault_of(alloc: Global, word: IntKind, rows: &[Row]) -> Option<LayoutFault> {
    layout_of(alloc, word, rows).err()
}

#[test]
fn rows_are_layouts_or_not(rt: HostRuntime) {
    let alloc = rt.alloc();
    for (word, rows, fault) in [
        (IntKind::U16, [(b'x', Some(3)), (b'y', Some(13))], None),
        (
            IntKind::U8,
            [(b'x', Some(3)), (b'y', Some(4))],
            Some(LayoutFault::WidthSum),
        ),
        (
            IntKind::I8,
            [(b'x', Some(3)), (b'y', Some(5))],
            Some(LayoutFault::WidthSum),
        ),
        (
            IntKind::U8,
            [(b'x', Some(u64::MAX)), (b'y', Some(9))],
            Some(LayoutFault::WidthSum),
        ),
        (
            IntKind::U8,
            [(b'x', Some(7)), (b'x', None)],
            Some(LayoutFault::TwiceNamed(1)),
        ),
        (
            IntKind::U64,
            [(b'x', Some(64)), (b'x', Some(0))],
            Some(LayoutFault::TwiceNamed(1)),
        ),
        (
            IntKind::U64,
            [(b'x', Some(0)), (b'x', Some(64))],
            Some(LayoutFault::EmptyField(0)),
        ),
    ] {
        assert_eq!(rt; fault_of(alloc, word, &rows), fault);
    }
}
