//! Whole units: the fixed lines, and items in their order.

ghost use Rattle.std.specs.Prelude.{◌≡◌, ◌∷◌, [], OnOk, IfOk};
ghost use Rattle.reading.specs.Row.{starts};
ghost use Rattle.c_ast.specs.View as view;
ghost use Rattle.grammars.specs.Kinds.{first};
ghost use Rattle.grammars.specs.Reader.{among};
ghost use Rattle.grammars.specs.Grammar.{after};
ghost use Rattle.c_grammar.specs.Pieces as piece;
ghost use Rattle.c_grammar.specs.Pieces.{pieces};
ghost use Rattle.c_grammar.specs.Kinds as kinds;
ghost use Rattle.c_grammar.specs.Symbols as symbols;
ghost use Rattle.c_grammar.specs.UnitRules as rules;
ghost use Rattle.c_lexemes.specs.Gives.{Gives, Passes};
ghost use Rattle.c_lexemes.specs.Levels.{begins_with, reads_at};
ghost use Rattle.c_parser.specs.Views.{added, item_of, items_of, stage_number};
ghost use Rattle.c_lexemes.specs.Words as words;
ghost use Rattle.c_lexemes.specs.declared.words.Fixed.TheVariants as fixed;

use crate::function::{function, plain_function};
use crate::hidden::{hidden_function, static_item};
use crate::item::{extern_line, line_end, struct_or_function};
use crate::parts::{Item, Stage};
use c_ast::CUnit;
use c_lexemes::{
    EXTERN, Fault, Fixed, SCALAR, STATIC, STRUCT, VOID, blank, close, fixed, is_next, kind, mark,
    open,
};
use iv_words::{Memory, Seq};
use std::alloc::Global;

// ---- the fixed lines

/// `.h>` and the end of the line.
fn header_end(depth: u16, bytes: &[u8]) -> Result<&[u8], Fault<'_>>
    ensures { Passes (piece.Byte 10) result (reads_at depth (after (symbols.mark 46) (after (symbols.word (words.fixed_text fixed.H)) (after (symbols.mark 62) symbols.new_line))) (pieces bytes.now)) }
{
    let rest = mark(depth, b'.', bytes)?;
    let rest = fixed(depth, Fixed::H, rest)?;
    let rest = mark(depth, b'>', rest)?;
    mark(depth, b'\n', rest)
}

/// The name of a header.
fn header_name(depth: u16, name: Fixed, bytes: &[u8]) -> Result<&[u8], Fault<'_>>
    requires { words.fixed_kind name ≡ 20 }
    ensures { Passes (piece.Word (words.fixed_text name)) result (reads_at depth (symbols.word (words.fixed_text name)) (pieces bytes.now)) }
{
    fixed(depth, name, bytes)
}

/// `<NAME.h>` and the end of the line.
fn header(depth: u16, name: Fixed, bytes: &[u8]) -> Result<&[u8], Fault<'_>>
    requires { words.fixed_kind name ≡ 20 }
    ensures { Passes (piece.Byte 10) result (reads_at depth (after (symbols.mark 60) (after (symbols.word (words.fixed_text name)) (after (symbols.mark 46) (after (symbols.word (words.fixed_text fixed.H)) (after (symbols.mark 62) symbols.new_line))))) (pieces bytes.now)) }
{
    let rest = mark(depth, b'<', bytes)?;
    let rest = header_name(depth, name, rest)?;
    header_end(depth, rest)
}

/// `#include <NAME.h>`.
fn included(depth: u16, name: Fixed, bytes: &[u8]) -> Result<&[u8], Fault<'_>>
    requires { words.fixed_kind name ≡ 20 }
    ensures { Passes (piece.Byte 10) result (reads_at depth (rules.included (words.fixed_text name)) (pieces bytes.now)) }
{
    let rest = mark(depth, b'#', bytes)?;
    let rest = fixed(depth, Fixed::Include, rest)?;
    let rest = blank(depth, rest)?;
    header(depth, name, rest)
}

#[tactic(auto, using(c_lexemes::proofs::Opening::openings))]
fn stop_params(depth: u16, bytes: &[u8]) -> Result<&[u8], Fault<'_>>
    ensures { Passes (piece.Word (words.fixed_text fixed.Uint32)) result (reads_at depth (symbols.parens symbols.stop_params) (pieces bytes.now)) }
{
    let (inside, rest) = open(depth, b'(', bytes)?;
    let rest = fixed(inside, Fixed::Uint32, rest)?;
    close(inside, b')', rest)
}

fn stop_name(depth: u16, bytes: &[u8]) -> Result<&[u8], Fault<'_>>
    ensures { Passes (piece.Byte 10) result (reads_at depth (after (symbols.word (words.fixed_text fixed.IvoryStop)) (after (symbols.parens symbols.stop_params) (after symbols.semicolon symbols.new_line))) (pieces bytes.now)) }
{
    let rest = fixed(depth, Fixed::IvoryStop, bytes)?;
    let rest = stop_params(depth, rest)?;
    line_end(depth, rest)
}

fn void_stop(depth: u16, bytes: &[u8]) -> Result<&[u8], Fault<'_>>
    ensures { Passes (piece.Byte 10) result (reads_at depth (after symbols.word_void (after symbols.blank (after (symbols.word (words.fixed_text fixed.IvoryStop)) (after (symbols.parens symbols.stop_params) (after symbols.semicolon symbols.new_line))))) (pieces bytes.now)) }
{
    let rest = fixed(depth, Fixed::Void, bytes)?;
    let rest = blank(depth, rest)?;
    stop_name(depth, rest)
}

fn stop_line(depth: u16, bytes: &[u8]) -> Result<&[u8], Fault<'_>>
    ensures { Passes (piece.Byte 10) result (reads_at depth rules.stop_line (pieces bytes.now)) }
{
    let rest = fixed(depth, Fixed::Extern, bytes)?;
    let rest = blank(depth, rest)?;
    void_stop(depth, rest)
}

#[tactic(auto, unfolding(c_grammar::specs::UnitRules::fixed_lines))]
fn fixed_lines(depth: u16, bytes: &[u8]) -> Result<&[u8], Fault<'_>>
    ensures { Passes (piece.Byte 10) result (reads_at depth rules.fixed_lines (pieces bytes.now)) }
{
    let rest = included(depth, Fixed::Stdint, bytes)?;
    let rest = included(depth, Fixed::Stdbool, rest)?;
    stop_line(depth, rest)
}

// ---- items

fn at_structs(alloc: Global, depth: u16, bytes: &[u8]) -> Result<(Item, &[u8]), Fault<'_>>
    ensures { Gives item_of result (reads_at depth rules.at_structs (pieces bytes.now)) }
{
    if is_next(depth, STRUCT, bytes) {
        return struct_or_function(alloc, depth, bytes);
    }
    if is_next(depth, EXTERN, bytes) {
        let (found, rest) = extern_line(alloc, depth, bytes)?;
        return Ok((Item::Extern(found), rest));
    }
    if is_static(depth, bytes) {
        return static_item(alloc, depth, bytes);
    }
    let (function, rest) = plain_function(alloc, depth, false, bytes)?;
    Ok((Item::Function(function), rest))
}

/// Whether an object or a hidden function begins here.
#[tactic(auto, unfolding(c_grammar::specs::UnitRules::static_item))]
fn is_static(depth: u16, bytes: &[u8]) -> bool
    ensures { result ≡ begins_with depth (first rules.static_item) (pieces bytes.now) }
{
    is_next(depth, STATIC, bytes)
}

fn at_objects(alloc: Global, depth: u16, bytes: &[u8]) -> Result<(Item, &[u8]), Fault<'_>>
    ensures { Gives item_of result (reads_at depth rules.at_objects (pieces bytes.now)) }
{
    if is_static(depth, bytes) {
        return static_item(alloc, depth, bytes);
    }
    let (function, rest) = function(alloc, depth, false, bytes)?;
    Ok((Item::Function(function), rest))
}

fn at_externs(alloc: Global, depth: u16, bytes: &[u8]) -> Result<(Item, &[u8]), Fault<'_>>
    ensures { Gives item_of result (reads_at depth rules.at_externs (pieces bytes.now)) }
{
    if is_next(depth, EXTERN, bytes) {
        let (found, rest) = extern_line(alloc, depth, bytes)?;
        return Ok((Item::Extern(found), rest));
    }
    at_objects(alloc, depth, bytes)
}

fn at_functions(alloc: Global, depth: u16, bytes: &[u8]) -> Result<(Item, &[u8]), Fault<'_>>
    ensures { Gives item_of result (reads_at depth rules.at_functions (pieces bytes.now)) }
{
    if is_next(depth, STATIC, bytes) {
        return hidden_function(alloc, depth, bytes);
    }
    let (function, rest) = function(alloc, depth, false, bytes)?;
    Ok((Item::Function(function), rest))
}

/// The next item.
#[tactic(auto, unfolding(c_grammar::specs::UnitRules::at_stage))]
fn item(alloc: Global, depth: u16, stage: Stage, bytes: &[u8]) -> Result<(Item, &[u8]), Fault<'_>>
    ensures { Gives item_of result (reads_at depth (rules.at_stage (stage_number stage)) (pieces bytes.now)) }
{
    match stage {
        Stage::Structs => at_structs(alloc, depth, bytes),
        Stage::Externs => at_externs(alloc, depth, bytes),
        Stage::Objects => at_objects(alloc, depth, bytes),
        Stage::Functions => at_functions(alloc, depth, bytes),
    }
}

fn starts_at_structs(depth: u16, bytes: &[u8]) -> bool
    ensures { result ≡ begins_with depth (9 ∷ 7 ∷ 6 ∷ 8 ∷ 22 ∷ []) (pieces bytes.now) }
{
    let kind = kind(depth, bytes);
    kind == STRUCT || kind == EXTERN || kind == STATIC || kind == VOID || kind == SCALAR
}

fn starts_at_externs(depth: u16, bytes: &[u8]) -> bool
    ensures { result ≡ begins_with depth (7 ∷ 6 ∷ 8 ∷ 22 ∷ 9 ∷ []) (pieces bytes.now) }
{
    let kind = kind(depth, bytes);
    kind == EXTERN || kind == STATIC || kind == VOID || kind == SCALAR || kind == STRUCT
}

fn starts_at_objects(depth: u16, bytes: &[u8]) -> bool
    ensures { result ≡ begins_with depth (6 ∷ 8 ∷ 22 ∷ 9 ∷ []) (pieces bytes.now) }
{
    let kind = kind(depth, bytes);
    kind == STATIC || kind == VOID || kind == SCALAR || kind == STRUCT
}

/// Whether a further item begins here.
#[tactic(auto, using(crate::proofs::Staged::structs_start, crate::proofs::Staged::externs_start, crate::proofs::Staged::objects_start, crate::proofs::Staged::functions_start))]
fn starts_item(depth: u16, stage: Stage, bytes: &[u8]) -> bool
    ensures { result ≡ starts (among kinds.lexicon depth (first (rules.at_stage (stage_number stage)))) (pieces bytes.now) }
{
    match stage {
        Stage::Structs => starts_at_structs(depth, bytes),
        Stage::Externs => starts_at_externs(depth, bytes),
        Stage::Objects => starts_at_objects(depth, bytes),
        Stage::Functions => starts_at_objects(depth, bytes),
    }
}

/// The stage that is reached with this item.
fn stage_of(item: &Item) -> Stage
    ensures { stage_number result ≡ rules.rank (item_of item.now) }
{
    match item {
        Item::Struct(_) => Stage::Structs,
        Item::Extern(_) => Stage::Externs,
        Item::Object(_) => Stage::Objects,
        Item::Function(_) => Stage::Functions,
    }
}

fn items(alloc: Global, depth: u16, bytes: &[u8]) -> Result<(Seq<Item>, &[u8]), Fault<'_>>
    ensures { Gives items_of result (reads_at depth rules.items (pieces bytes.now)) }
{
    let mut items = Seq::new(alloc);
    let mut rest = bytes;
    let mut stage = Stage::Structs;
    // Each item takes a byte at least.
    for _turn in 0..bytes.len() {
        if !starts_item(depth, stage, rest) {
            break;
        }
        let (next, after) = item(alloc, depth, stage, rest)?;
        stage = stage_of(&next);
        items.push(next)?;
        rest = after;
    }
    Ok((items, rest))
}

// ---- the unit

#[tactic(auto, using(crate::proofs::Added::added_struct, crate::proofs::Added::added_extern, crate::proofs::Added::added_object, crate::proofs::Added::added_function))]
fn add(unit: &mut CUnit, item: Item) -> Result<(), Memory>
    ensures { OnOk result (view.unit_of unit.new ≡ added (view.unit_of unit.old) (item_of item ∷ [])) }
{
    match item {
        Item::Struct(found) => unit.structs.push(found),
        Item::Extern(found) => unit.externs.push(found),
        Item::Object(found) => unit.objects.push(found),
        Item::Function(found) => unit.functions.push(found),
    }
}

fn unit_with(alloc: Global, items: Seq<Item>) -> Result<CUnit, Memory>
    ensures { IfOk result (λ u. view.unit_of u ≡ rules.unit_of (items_of items)) }
{
    let mut unit = CUnit {
        structs: Seq::new(alloc),
        externs: Seq::new(alloc),
        objects: Seq::new(alloc),
        functions: Seq::new(alloc),
    };
    for item in items.into_vec() {
        add(&mut unit, item)?;
    }
    Ok(unit)
}

/// A unit, and what is left behind it.
pub fn unit(alloc: Global, depth: u16, bytes: &[u8]) -> Result<(CUnit, &[u8]), Fault<'_>>
    ensures { Gives view.unit_of result (reads_at depth rules.unit_rule (pieces bytes.now)) }
{
    let rest = fixed_lines(depth, bytes)?;
    let (items, rest) = items(alloc, depth, rest)?;
    Ok((unit_with(alloc, items)?, rest))
}
