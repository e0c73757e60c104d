//! Sizes, alignments and offsets of the types of a unit. A struct is looked up among those before the one that uses it, so the
//! search ends whatever the unit is.

ghost use Rattle.std.specs.Prelude.{◌≡◌, [], ◌≤◌, ◌<◌, ◌^◌, length, IfSome};
ghost use Rattle.c_ast.specs.declared.types.CBase.TheVariants.{Struct as Named};
ghost use Rattle.c_ast.specs.Targets.{table_of};
ghost use Rattle.type_trees.specs.Multiples.{up};
ghost use Rattle.type_trees.specs.Layouts.{align_row, size, offset_row};
ghost use Rattle.c_ast.specs.Scalars.{scalar_bytes, scalar_alignment, metric_of};
ghost use Rattle.c_ast.specs.Places.{place_from, member_type, member_row, row_size};
ghost use Rattle.c_ast.specs.Structs as types;
ghost use Rattle.c_ast.specs.Structs.{index_of};

use crate::target::width;
use crate::types::{CBase, CScalar, Target};
use crate::unit::{CMember, CStruct, CUnit};
use iv_words::Word;

fn scalar_size(s: CScalar) -> u64
    ensures value { result ≡ scalar_bytes s }
    ensures some { 1 ≤ result }
{
    match s {
        CScalar::Truth => 1,
        CScalar::Int(kind) => u64::from(width(kind)) / 8,
    }
}

fn scalar_align(t: Target, s: CScalar) -> u64
    ensures value { result ≡ scalar_alignment (table_of t) s }
    ensures some { 1 ≤ result }
{
    scalar_size(s).min(t.greatest_alignment())
}

fn find(structs: &[CStruct], name: &Word) -> Option<usize>
    ensures place { result ≡ place_from 0 structs.now name.now }
    ensures within { IfSome result (λ k. k < length structs.now) }
{
    for i in 0..structs.len() {
        if structs[i].name == *name {
            return Some(i);
        }
    }
    None
}

#[cycle(aligns)]
fn base_align(t: Target, structs: &[CStruct], b: &CBase) -> u64
    ensures value { result ≡ types.align_of t structs.now b.now }
    ensures some { 1 ≤ result }
{
    match b {
        CBase::Scalar(s) => scalar_align(t, *s),
        CBase::Struct(name) => match find(structs, name) {
            Some(k) => members_align(t, &structs[..k], structs[k].members.as_slice()),
            None => 1,
        },
    }
}

#[cycle(aligns)]
fn members_align(t: Target, earlier: &[CStruct], members: &[CMember]) -> u64
    ensures value { result ≡ align_row (metric_of t) (member_row earlier.now members.now) }
    ensures some { 1 ≤ result }
{
    let mut most = 1;
    for m in members {
        most = most.max(base_align(t, earlier, &m.base));
    }
    most
}

#[tactic(auto, unfolding(type_trees::specs::Multiples::up))]
fn up(o: u64, a: u64) -> u64
    requires some { 1 ≤ a }
    requires fits { up o a < 2 ^ 40 }
    ensures { result ≡ up o a }
{
    o + (a - o % a) % a
}

#[cycle(sizes)]
fn base_size(t: Target, structs: &[CStruct], b: &CBase) -> u64
    requires { types.size_of t structs.now b.now < 2 ^ 40 }
    ensures { result ≡ types.size_of t structs.now b.now }
{
    match b {
        CBase::Scalar(s) => scalar_size(*s),
        CBase::Struct(name) => match find(structs, name) {
            Some(k) => members_size(t, &structs[..k], structs[k].members.as_slice()),
            None => 0,
        },
    }
}

#[cycle(sizes)]
fn member_size(t: Target, earlier: &[CStruct], m: &CMember) -> u64
    requires { size (metric_of t) (member_type earlier.now m.now) < 2 ^ 40 }
    ensures { result ≡ size (metric_of t) (member_type earlier.now m.now) }
{
    match m.length {
        None => base_size(t, earlier, &m.base),
        Some(n) => {
            if n == 0 {
                return 0;
            }
            u64::from(n) * base_size(t, earlier, &m.base)
        }
    }
}

#[cycle(sizes)]
fn members_size(t: Target, earlier: &[CStruct], members: &[CMember]) -> u64
    requires { row_size (metric_of t) (member_row earlier.now members.now) < 2 ^ 40 }
    ensures { result ≡ row_size (metric_of t) (member_row earlier.now members.now) }
{
    let mut end = 0;
    for m in members {
        let at = up(end, base_align(t, earlier, &m.base));
        end = at + member_size(t, earlier, m);
    }
    let most = members_align(t, earlier, members);
    up(end, most)
}

fn member_offset(t: Target, earlier: &[CStruct], members: &[CMember], name: &Word) -> u64
    requires { row_size (metric_of t) (member_row earlier.now members.now) < 2 ^ 40 }
    ensures { result ≡ offset_row (metric_of t) (member_row earlier.now members.now) (index_of (member_row earlier.now members.now) name.now) [] 0 }
{
    let mut end = 0;
    for m in members {
        let at = up(end, base_align(t, earlier, &m.base));
        if m.name == *name {
            return at;
        }
        end = at + member_size(t, earlier, m);
    }
    0
}

/// The bytes of a type in a unit (C99 6.5.3.4). Of two structs of one name the first counts, and a struct is made of those
/// before it.
pub fn size_of(t: Target, u: &CUnit, b: &CBase) -> u64
    requires { types.size_of t u.now.structs b.now < 2 ^ 40 }
    ensures { result ≡ types.size_of t u.now.structs b.now }
{
    base_size(t, u.structs.as_slice(), b)
}

/// The alignment of a type in a unit, in bytes: that of a scalar, or the greatest of a struct's members.
pub fn align_of(t: Target, u: &CUnit, b: &CBase) -> u64
    ensures { result ≡ types.align_of t u.now.structs b.now }
{
    base_align(t, u.structs.as_slice(), b)
}

fn struct_offset(t: Target, structs: &[CStruct], s: &Word, m: &Word) -> u64
    requires { types.size_of t structs.now (Named s.now) < 2 ^ 40 }
    ensures { result ≡ types.offset_of t structs.now s.now m.now }
{
    match find(structs, s) {
        Some(k) => member_offset(t, &structs[..k], structs[k].members.as_slice(), m),
        None => 0,
    }
}

/// The offset, in bytes, of a member of a struct (C99 7.17). Of two structs or members of one name the first counts.
pub fn offset_of(t: Target, u: &CUnit, s: &Word, m: &Word) -> u64
    requires { types.size_of t u.now.structs (Named s.now) < 2 ^ 40 }
    ensures { result ≡ types.offset_of t u.now.structs s.now m.now }
{
    struct_offset(t, u.structs.as_slice(), s, m)
}
