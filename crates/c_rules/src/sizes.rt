//! Sizes and alignments, as far as it matters whether a member ends in time.

ghost use Rattle.std.specs.Prelude.{◌≡◌, ◌≤◌, max};
ghost use Rattle.iv_words.specs.Kinds as kinds;
ghost use Rattle.c_ast.specs.Names.{named};
ghost use Rattle.c_ast.specs.Scalars.{scalar_bytes, scalar_alignment};
ghost use Rattle.c_ast.specs.Targets.{table_of};
ghost use Rattle.type_trees.specs.Multiples as multiples;
ghost use Rattle.type_trees.specs.Trees.{Leaf};
ghost use Rattle.c_scopes.specs.StructViews.{structs_view};
ghost use Rattle.c_rules.specs.Sizes as sizes;
ghost use Rattle.c_rules.specs.Sizes.{capped, ended, sized_times, tree_size, sized_view};

use c_ast::{CBase, CMember, CScalar, Target};
use c_scopes::Structs;
use iv_words::{IntKind, Word};

/// 2^40, which stands for all that is more.
pub const BOUND: u64 = 1_099_511_627_776;

/// The bytes of a type, of which no more than `BOUND` are counted, and its alignment.
#[derive(Clone, Copy, Drop)]
pub struct Size {
    pub bytes: u64,
    pub align: u64,
}

fn bytes_of(scalar: CScalar) -> u64
    ensures { result ≡ scalar_bytes scalar }
{
    match scalar {
        CScalar::Truth => 1,
        CScalar::Int(kind) => kind_bytes(kind),
    }
}

fn kind_bytes(kind: IntKind) -> u64
    ensures { result ≡ kinds.kind_bytes kind }
{
    match kind {
        IntKind::U8 | IntKind::I8 => 1,
        IntKind::U16 | IntKind::I16 => 2,
        IntKind::U32 | IntKind::I32 => 4,
        IntKind::U64 | IntKind::I64 => 8,
    }
}

/// The alignment of a scalar of so many bytes.
fn scalar_align(target: Target, scalar: CScalar) -> u64
    ensures { result ≡ scalar_alignment (table_of target) scalar }
{
    match target {
        Target::T32 => bytes_of(scalar).min(8),
    }
}

fn scalar_size(target: Target, scalar: CScalar) -> Size
    ensures { result ≡ tree_size target (Leaf scalar) }
{
    Size {
        bytes: bytes_of(scalar).min(BOUND),
        align: scalar_align(target, scalar),
    }
}

/// The size of the first struct of a tag.
fn find_size(structs: &Structs, sized: &[Size], tag: &Word) -> Option<Size>
    ensures { result ≡ named (sized_view (structs_view structs.now) sized.now) tag.now }
{
    match structs.find(tag) {
        None => None,
        Some(k) => sized.get(k).copied(),
    }
}

fn base_size(target: Target, structs: &Structs, sized: &[Size], base: &CBase) -> Size
    ensures { result ≡ sizes.base_size target (sized_view (structs_view structs.now) sized.now) base.now }
{
    match base {
        CBase::Scalar(scalar) => scalar_size(target, *scalar),
        CBase::Struct(tag) => match find_size(structs, sized, tag) {
            None => Size { bytes: 0, align: 1 },
            Some(size) => size,
        },
    }
}

/// So many of it, one behind another.
fn times_size(length: Option<u32>, size: Size) -> Size
    ensures { result ≡ sized_times length size }
{
    match length {
        None => size,
        Some(n) => Size {
            bytes: u64::from(n).saturating_mul(size.bytes).min(BOUND),
            align: size.align,
        },
    }
}

pub fn member_size(target: Target, structs: &Structs, sized: &[Size], member: &CMember) -> Size
    ensures { result ≡ sized_times member.now.length (sizes.base_size target (sized_view (structs_view structs.now) sized.now) member.now.base) }
{
    times_size(
        member.length,
        base_size(target, structs, sized, &member.base),
    )
}

/// The least multiple of an alignment that is not below an offset, up to the bound.
#[tactic(auto, unfolding(type_trees::specs::Multiples::up))]
fn up(offset: u64, align: u64) -> u64
    requires { 1 ≤ align }
    ensures { capped result ≡ capped (multiples.up offset align) }
{
    offset.saturating_add((align - offset % align) % align)
}

/// Where something ends that may begin at an offset.
pub fn end_of(offset: u64, size: &Size) -> u64
    ensures { result ≡ ended offset size.now }
{
    up(offset, size.align.max(1))
        .saturating_add(size.bytes)
        .min(BOUND)
}

/// The size of a struct whose last member ends there.
pub fn rounded(end: u64, align: u64) -> u64
    ensures { result ≡ capped (multiples.up end (max align 1)) }
{
    up(end, align.max(1)).min(BOUND)
}
