//! What one walk over an area finds: how many cells, nodes, bytes and levels it has. Whatever the area, no number wraps: each
//! stops at the greatest `u32`, far above every limit.

ghost use Rattle.std.specs.Prelude.{◌≡◌, ◌≤◌, List, nat_le, ◌&&◌};
ghost use Rattle.iv_words.specs.Kinds.{kind_bytes};
ghost use Rattle.iv_words.specs.declared.IntKind.{IntKind};
ghost use Rattle.type_trees.specs.Multiples.{up};
ghost use Rattle.type_trees.specs.Trees.{End};
ghost use Rattle.area_types.specs.Extents.{capped, row_extent, times, with_field, enclosed};
ghost use Rattle.area_types.specs.Sizes.{bytes};
ghost use Rattle.area_types.specs.Syntax.{Bits};
ghost use Rattle.area_types.specs.View.{type_of};

use crate::area::{Area, ValueType};
use iv_words::IntKind;

/// The numbers of an area. `cells` counts the stored places, `nodes` arrays and structs too, and `levels` how many of these
/// stand one within the other; `size` and `alignment` are in bytes, on the target t32.
#[derive(Clone, Copy)]
pub(crate) struct Extent {
    pub cells: u32,
    pub nodes: u32,
    pub size: u32,
    pub alignment: u32,
    pub levels: u32,
}

fn kind_bytes(kind: IntKind) -> u32
    ensures { result ≡ kind_bytes kind }
{
    match kind {
        IntKind::U8 | IntKind::I8 => 1,
        IntKind::U16 | IntKind::I16 => 2,
        IntKind::U32 | IntKind::I32 => 4,
        IntKind::U64 | IntKind::I64 => 8,
    }
}

fn word_bytes(words: &[IntKind], at: u32) -> u32
    ensures { result ≡ bytes words.now (Bits at) }
{
    match words.get(at as usize) {
        Some(kind) => kind_bytes(*kind),
        None => 1,
    }
}

/// The bytes of a scalar, which is aligned to them.
pub(crate) fn scalar_bytes(held: &ValueType, words: &[IntKind]) -> u32
    ensures { result ≡ bytes words.now (type_of held.now) }
{
    match held {
        ValueType::Bool => 1,
        ValueType::Int(kind) => kind_bytes(*kind),
        ValueType::Ix(_) => 2,
        ValueType::Bits(word) => word_bytes(words, *word),
        ValueType::Ref(_) => 4,
    }
}

/// The least multiple of the alignment that is not below the offset.
#[tactic(auto, unfolding(type_trees::specs::Multiples::up))]
fn up(offset: u32, alignment: u32) -> u32
    requires { 1 ≤ alignment }
    ensures { result ≡ capped (up offset alignment) }
{
    offset.saturating_add((alignment - offset % alignment) % alignment)
}

impl Extent {
    /// A stored place of so many bytes.
    pub fn stored(bytes: u32) -> Extent
        ensures { result ≡ record { cells = 1; nodes = 1; size = bytes; alignment = bytes; levels = 0 } }
    {
        Extent {
            cells: 1,
            nodes: 1,
            size: bytes,
            alignment: bytes,
            levels: 0,
        }
    }

    /// An array of so many of these.
    pub fn times(self, length: u32) -> Extent
        ensures { result ≡ times self length }
    {
        Extent {
            cells: length.saturating_mul(self.cells),
            nodes: length.saturating_mul(self.nodes).saturating_add(1),
            size: length.saturating_mul(self.size),
            alignment: self.alignment,
            levels: self.levels.saturating_add(1),
        }
    }

    /// A row without a field.
    pub fn empty_row() -> Extent
        ensures { (words : List IntKind) → result ≡ row_extent words End }
    {
        Extent {
            cells: 0,
            nodes: 0,
            size: 0,
            alignment: 1,
            levels: 0,
        }
    }

    /// The row with one more field behind it.
    pub fn with_field(self, field: Extent) -> Extent
        requires { 1 ≤ field.alignment }
        ensures { result ≡ with_field self field }
    {
        Extent {
            cells: self.cells.saturating_add(field.cells),
            nodes: self.nodes.saturating_add(field.nodes),
            size: up(self.size, field.alignment).saturating_add(field.size),
            alignment: self.alignment.max(field.alignment),
            levels: self.levels.max(field.levels),
        }
    }

    /// The struct of the row.
    pub fn enclosed(self) -> Extent
        requires { 1 ≤ self.alignment }
        ensures { result ≡ enclosed self }
    {
        Extent {
            cells: self.cells,
            nodes: self.nodes.saturating_add(1),
            size: up(self.size, self.alignment),
            alignment: self.alignment,
            levels: self.levels.saturating_add(1),
        }
    }

    /// Whether an area of these numbers is within the limits: 65,535 bytes and 32 levels.
    pub fn is_small(&self) -> bool
        ensures { result ≡ (nat_le self.now.size 65_535 && nat_le self.now.levels 32) }
    {
        self.size <= 65_535 && self.levels <= 32
    }
}
