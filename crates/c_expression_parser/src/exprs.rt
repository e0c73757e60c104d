//! Expressions and places.

ghost use Rattle.std.specs.Prelude.{◌≡◌, ◌∷◌, true};
ghost use Rattle.std.specs.Option.{option_map};
ghost use Rattle.reading.specs.Reader.{mapped};
ghost use Rattle.c_ast.specs.Syntax.{Read, Unary};
ghost use Rattle.c_ast.specs.View.{expr_of, place_of};
ghost use Rattle.grammars.specs.Grammar.{after, before, map, optional, repeat, sequence};
ghost use Rattle.c_grammar.specs.Pieces.{pieces};
ghost use Rattle.c_grammar.specs.Symbols as symbols;
ghost use Rattle.c_grammar.specs.TypeRules as names;
ghost use Rattle.c_grammar.specs.ExpressionRules as rules;
ghost use Rattle.c_lexemes.specs.Gives.{Gives, itself};
ghost use Rattle.c_expression_parser.specs.Outcomes.{inner_outcome, inside_outcome, tail_choice};
ghost use Rattle.c_lexemes.specs.Levels.{is_mark, reads_at};
ghost use Rattle.c_expression_parser.specs.Views.{arms_of, binary_of, inner_of, inside_of, step_of, steps_and_tail_of, steps_of, tail_of};

use crate::nodes::{
    address_node, cast_node, named_place, number_node, pointed_place, pointed_value, read_node,
    unary_node, with_tail,
};
use crate::operator::{operator, starts_operator};
use crate::parts::{Inside, Side, Step, Tail};
use crate::types::value_type;
use c_ast::{CBinary, CExpr, CPlace, CType, CUnary};
use c_lexemes::{
    AMPERSAND, DOT, Fault, MINUS, NAME, NUMBER, OPEN_SQUARE, STAR, TILDE, blank, close, goes_on,
    is_next, is_operand, is_type, is_unary, kind, mark, name, number, open,
};
use iv_words::{Seq, Word};
use std::alloc::Global;

/// `.NAME`.
fn dot_name(alloc: Global, depth: u16, bytes: &[u8]) -> Result<(Word, &[u8]), Fault<'_>>
    ensures { Gives itself result (reads_at depth (after (symbols.mark 46) names.name) (pieces bytes.now)) }
{
    let rest = mark(depth, b'.', bytes)?;
    name(alloc, depth, rest)
}

/// A number as an expression.
pub fn number_expression(depth: u16, bytes: &[u8]) -> Result<(CExpr, &[u8]), Fault<'_>>
    ensures { Gives expr_of result (reads_at depth rules.number (pieces bytes.now)) }
{
    let ((value, suffix), rest) = number(depth, bytes)?;
    Ok((number_node(value, suffix), rest))
}

/// An operator and the blank behind it.
fn operator_and_blank(depth: u16, bytes: &[u8]) -> Result<(CBinary, &[u8]), Fault<'_>>
    ensures { Gives itself result (reads_at depth (before rules.binary_operator symbols.blank) (pieces bytes.now)) }
{
    let (op, rest) = operator(depth, bytes)?;
    let rest = blank(depth, rest)?;
    Ok((op, rest))
}

/// `[E]`.
#[cycle(exprs)]
#[tactic(auto, using(c_lexemes::proofs::Opening::openings))]
fn in_squares(alloc: Global, depth: u16, bytes: &[u8]) -> Result<(CExpr, &[u8]), Fault<'_>>
    ensures { Gives expr_of result (reads_at depth (symbols.squares symbols.an_expression) (pieces bytes.now)) }
{
    let (inside, rest) = open(depth, b'[', bytes)?;
    let (index, rest) = expression(alloc, inside, rest)?;
    let rest = close(inside, b']', rest)?;
    Ok((index, rest))
}

#[cycle(exprs)]
fn optional_index(
    alloc: Global,
    depth: u16,
    bytes: &[u8],
) -> Result<(Option<CExpr>, &[u8]), Fault<'_>>
    ensures { Gives (option_map expr_of) result (reads_at depth (optional (symbols.squares symbols.an_expression)) (pieces bytes.now)) }
{
    if !is_next(depth, OPEN_SQUARE, bytes) {
        return Ok((None, bytes));
    }
    let (index, rest) = in_squares(alloc, depth, bytes)?;
    Ok((Some(index), rest))
}

/// A member, and its element where an index follows.
#[cycle(exprs)]
fn step(alloc: Global, depth: u16, bytes: &[u8]) -> Result<(Step, &[u8]), Fault<'_>>
    ensures { Gives step_of result (reads_at depth rules.step (pieces bytes.now)) }
{
    let (name, rest) = dot_name(alloc, depth, bytes)?;
    let (index, rest) = optional_index(alloc, depth, rest)?;
    Ok((Step { name, index }, rest))
}

/// As many steps as follow.
#[cycle(exprs)]
pub fn steps(alloc: Global, depth: u16, bytes: &[u8]) -> Result<(Seq<Step>, &[u8]), Fault<'_>>
    ensures { Gives steps_of result (reads_at depth (repeat rules.step) (pieces bytes.now)) }
{
    let mut steps = Seq::new(alloc);
    let mut rest = bytes;
    // Each step takes a byte at least.
    for _turn in 0..bytes.len() {
        if !goes_on(depth, DOT, rest) {
            break;
        }
        let (next, after) = step(alloc, depth, rest)?;
        steps.push(next)?;
        rest = after;
    }
    Ok((steps, rest))
}

#[cycle(exprs)]
fn place_of_name(alloc: Global, depth: u16, bytes: &[u8]) -> Result<(CPlace, &[u8]), Fault<'_>>
    ensures { Gives place_of result (reads_at depth rules.place_of_name (pieces bytes.now)) }
{
    let (name, rest) = name(alloc, depth, bytes)?;
    let (steps, rest) = steps(alloc, depth, rest)?;
    Ok((named_place(alloc, name, steps)?, rest))
}

/// `*E`.
#[cycle(exprs)]
fn pointer(alloc: Global, depth: u16, bytes: &[u8]) -> Result<(CExpr, &[u8]), Fault<'_>>
    ensures { Gives expr_of result (reads_at depth rules.pointer_rule (pieces bytes.now)) }
{
    let rest = mark(depth, b'*', bytes)?;
    expression(alloc, depth, rest)
}

/// `(*E)` where a place begins.
#[cycle(exprs)]
#[tactic(auto, using(c_lexemes::proofs::Opening::openings))]
pub fn pointer_in_parens(
    alloc: Global,
    depth: u16,
    bytes: &[u8],
) -> Result<(CExpr, &[u8]), Fault<'_>>
    ensures { Gives expr_of result (reads_at depth (symbols.parens symbols.a_pointer) (pieces bytes.now)) }
{
    let (inside, rest) = open(depth, b'(', bytes)?;
    let (target, rest) = pointer(alloc, inside, rest)?;
    let rest = close(inside, b')', rest)?;
    Ok((target, rest))
}

#[cycle(exprs)]
fn place_of_pointer(alloc: Global, depth: u16, bytes: &[u8]) -> Result<(CPlace, &[u8]), Fault<'_>>
    ensures { Gives place_of result (reads_at depth rules.place_of_pointer (pieces bytes.now)) }
{
    let (target, rest) = pointer_in_parens(alloc, depth, bytes)?;
    let (steps, rest) = steps(alloc, depth, rest)?;
    Ok((pointed_place(alloc, target, steps)?, rest))
}

#[cycle(exprs)]
fn place(alloc: Global, depth: u16, bytes: &[u8]) -> Result<(CPlace, &[u8]), Fault<'_>>
    ensures { Gives place_of result (reads_at depth rules.place (pieces bytes.now)) }
{
    if is_next(depth, NAME, bytes) {
        place_of_name(alloc, depth, bytes)
    } else {
        place_of_pointer(alloc, depth, bytes)
    }
}

/// A number, or the value of a named place.
#[cycle(exprs)]
fn operand(alloc: Global, depth: u16, bytes: &[u8]) -> Result<(CExpr, &[u8]), Fault<'_>>
    ensures { Gives expr_of result (reads_at depth rules.operand (pieces bytes.now)) }
{
    if is_next(depth, NUMBER, bytes) {
        return number_expression(depth, bytes);
    }
    let (place, rest) = place_of_name(alloc, depth, bytes)?;
    Ok((read_node(place), rest))
}

/// An expression.
#[cycle(exprs)]
#[tactic(auto, unfolding(c_grammar::specs::ExpressionRules::expression))]
pub fn expression(alloc: Global, depth: u16, bytes: &[u8]) -> Result<(CExpr, &[u8]), Fault<'_>>
    ensures { Gives expr_of result (reads_at depth rules.expression (pieces bytes.now)) }
{
    if is_operand(kind(depth, bytes)) {
        operand(alloc, depth, bytes)
    } else {
        in_parens(alloc, depth, bytes)
    }
}

/// The colon and the second arm.
#[cycle(exprs)]
fn other_arm(alloc: Global, depth: u16, bytes: &[u8]) -> Result<(CExpr, &[u8]), Fault<'_>>
    ensures { Gives expr_of result (reads_at depth (after symbols.blank (after (symbols.mark 58) (after symbols.blank rules.expression))) (pieces bytes.now)) }
{
    let rest = blank(depth, bytes)?;
    let rest = mark(depth, b':', rest)?;
    let rest = blank(depth, rest)?;
    expression(alloc, depth, rest)
}

#[cycle(exprs)]
fn both_arms(alloc: Global, depth: u16, bytes: &[u8]) -> Result<((CExpr, CExpr), &[u8]), Fault<'_>>
    ensures { Gives arms_of result (reads_at depth (sequence symbols.pair rules.expression (after symbols.blank (after (symbols.mark 58) (after symbols.blank rules.expression)))) (pieces bytes.now)) }
{
    let (first, rest) = expression(alloc, depth, bytes)?;
    let (second, rest) = other_arm(alloc, depth, rest)?;
    Ok(((first, second), rest))
}

/// `? E : E`.
#[cycle(exprs)]
fn cond_tail(alloc: Global, depth: u16, bytes: &[u8]) -> Result<((CExpr, CExpr), &[u8]), Fault<'_>>
    ensures { Gives arms_of result (reads_at depth rules.cond_tail (pieces bytes.now)) }
{
    let rest = mark(depth, b'?', bytes)?;
    let rest = blank(depth, rest)?;
    both_arms(alloc, depth, rest)
}

/// `op E`.
#[cycle(exprs)]
fn binary_tail(
    alloc: Global,
    depth: u16,
    bytes: &[u8],
) -> Result<((CBinary, CExpr), &[u8]), Fault<'_>>
    ensures { Gives binary_of result (reads_at depth rules.binary_tail (pieces bytes.now)) }
{
    let (op, rest) = operator_and_blank(depth, bytes)?;
    let (right, rest) = expression(alloc, depth, rest)?;
    Ok(((op, right), rest))
}

/// What stands behind the first operand, without the blank before it.
#[cycle(exprs)]
fn tail_behind_blank(alloc: Global, depth: u16, bytes: &[u8]) -> Result<(Tail, &[u8]), Fault<'_>>
    ensures { Gives tail_of result (tail_choice depth (pieces bytes.now)) }
{
    if starts_operator(depth, bytes) {
        let (binary, rest) = binary_tail(alloc, depth, bytes)?;
        return Ok((Side::Left(binary), rest));
    }
    let (arms, rest) = cond_tail(alloc, depth, bytes)?;
    Ok((Side::Right(arms), rest))
}

/// What stands behind the first operand.
#[cycle(exprs)]
#[tactic(auto, using(crate::proofs::Forms::tail_read))]
fn tail(alloc: Global, depth: u16, bytes: &[u8]) -> Result<(Tail, &[u8]), Fault<'_>>
    ensures { Gives tail_of result (reads_at depth rules.tail (pieces bytes.now)) }
{
    let rest = blank(depth, bytes)?;
    tail_behind_blank(alloc, depth, rest)
}

#[cycle(exprs)]
fn steps_and_tail(
    alloc: Global,
    depth: u16,
    bytes: &[u8],
) -> Result<((Seq<Step>, Tail), &[u8]), Fault<'_>>
    ensures { Gives steps_and_tail_of result (reads_at depth (sequence symbols.pair (repeat rules.step) rules.tail) (pieces bytes.now)) }
{
    let (steps, rest) = steps(alloc, depth, bytes)?;
    let (tail, rest) = tail(alloc, depth, rest)?;
    Ok(((steps, tail), rest))
}

/// An operand and what stands behind it.
#[cycle(exprs)]
fn operand_first(alloc: Global, depth: u16, bytes: &[u8]) -> Result<(CExpr, &[u8]), Fault<'_>>
    ensures { Gives expr_of result (reads_at depth rules.operand_first (pieces bytes.now)) }
{
    let (first, rest) = operand(alloc, depth, bytes)?;
    let (tail, rest) = tail(alloc, depth, rest)?;
    Ok((with_tail(alloc, first, tail)?, rest))
}

/// `&L`.
#[cycle(exprs)]
fn address(alloc: Global, depth: u16, bytes: &[u8]) -> Result<(CExpr, &[u8]), Fault<'_>>
    ensures { Gives expr_of result (reads_at depth rules.address (pieces bytes.now)) }
{
    let rest = mark(depth, b'&', bytes)?;
    let (place, rest) = place(alloc, depth, rest)?;
    Ok((address_node(place), rest))
}

/// A unary operator and its operand.
#[cycle(exprs)]
fn prefixed(
    alloc: Global,
    depth: u16,
    sign: u8,
    op: CUnary,
    bytes: &[u8],
) -> Result<(CExpr, &[u8]), Fault<'_>>
    requires { is_mark sign ≡ true }
    ensures { Gives expr_of result (reads_at depth (map (Unary op) (after (symbols.mark sign) rules.expression)) (pieces bytes.now)) }
{
    let rest = mark(depth, sign, bytes)?;
    let (operand, rest) = expression(alloc, depth, rest)?;
    Ok((unary_node(alloc, op, operand)?, rest))
}

#[cycle(exprs)]
fn unary(alloc: Global, depth: u16, bytes: &[u8]) -> Result<(CExpr, &[u8]), Fault<'_>>
    ensures { Gives expr_of result (reads_at depth rules.unary (pieces bytes.now)) }
{
    let kind = kind(depth, bytes);
    if kind == MINUS {
        prefixed(alloc, depth, b'-', CUnary::Neg, bytes)
    } else if kind == TILDE {
        prefixed(alloc, depth, b'~', CUnary::Flip, bytes)
    } else {
        prefixed(alloc, depth, b'!', CUnary::Not, bytes)
    }
}

/// What stands in parentheses, where it is no `*E` and no type.
#[cycle(exprs)]
#[tactic(auto, unfolding(c_grammar::specs::ExpressionRules::value_inside))]
fn value_inside(alloc: Global, depth: u16, bytes: &[u8]) -> Result<(CExpr, &[u8]), Fault<'_>>
    ensures { Gives expr_of result (reads_at depth rules.value_inside (pieces bytes.now)) }
{
    let kind = kind(depth, bytes);
    if kind == AMPERSAND {
        address(alloc, depth, bytes)
    } else if is_unary(kind) {
        unary(alloc, depth, bytes)
    } else if is_operand(kind) {
        operand_first(alloc, depth, bytes)
    } else {
        cast_or_tail(alloc, depth, bytes)
    }
}

/// What stands in parentheses where an expression begins.
#[cycle(exprs)]
fn inner(alloc: Global, depth: u16, bytes: &[u8]) -> Result<(Side<CExpr, CExpr>, &[u8]), Fault<'_>>
    ensures { Gives inner_of result (reads_at depth rules.inner_rule (pieces bytes.now)) }
{
    if is_next(depth, STAR, bytes) {
        let (target, rest) = pointer(alloc, depth, bytes)?;
        return Ok((Side::Left(target), rest));
    }
    let (value, rest) = value_inside(alloc, depth, bytes)?;
    Ok((Side::Right(value), rest))
}

#[cycle(exprs)]
#[tactic(auto, using(c_lexemes::proofs::Opening::openings))]
fn inner_in_parens(
    alloc: Global,
    depth: u16,
    bytes: &[u8],
) -> Result<(Side<CExpr, CExpr>, &[u8]), Fault<'_>>
    ensures { Gives inner_of result (reads_at depth (symbols.parens symbols.an_inner) (pieces bytes.now)) }
{
    let (inside, rest) = open(depth, b'(', bytes)?;
    let (inner, rest) = inner(alloc, inside, rest)?;
    let rest = close(inside, b')', rest)?;
    Ok((inner, rest))
}

/// The steps behind `(*E)`.
#[cycle(exprs)]
fn behind_pointer(
    alloc: Global,
    depth: u16,
    target: CExpr,
    bytes: &[u8],
) -> Result<(CExpr, &[u8]), Fault<'_>>
    ensures { Gives expr_of result (mapped (λ found. Read (rules.place_behind (expr_of target) found)) (reads_at depth (repeat rules.step) (pieces bytes.now))) }
{
    let (steps, rest) = steps(alloc, depth, bytes)?;
    let place = pointed_place(alloc, target, steps)?;
    Ok((read_node(place), rest))
}

/// What stands behind the parentheses: steps behind `(*E)`, and else nothing.
#[cycle(exprs)]
fn behind_inner(
    alloc: Global,
    depth: u16,
    inner: Side<CExpr, CExpr>,
    bytes: &[u8],
) -> Result<(CExpr, &[u8]), Fault<'_>>
    ensures { Gives expr_of result (inner_outcome depth inner (pieces bytes.now)) }
{
    match inner {
        Side::Left(target) => behind_pointer(alloc, depth, target, bytes),
        Side::Right(value) => Ok((value, bytes)),
    }
}

#[cycle(exprs)]
pub fn in_parens(alloc: Global, depth: u16, bytes: &[u8]) -> Result<(CExpr, &[u8]), Fault<'_>>
    ensures { Gives expr_of result (reads_at depth rules.in_parens (pieces bytes.now)) }
{
    let (inner, rest) = inner_in_parens(alloc, depth, bytes)?;
    behind_inner(alloc, depth, inner, rest)
}

/// What stands in parentheses, where a second `(` stands before it.
#[cycle(exprs)]
fn inside(alloc: Global, depth: u16, bytes: &[u8]) -> Result<(Inside, &[u8]), Fault<'_>>
    ensures { Gives inside_of result (reads_at depth rules.inside_rule (pieces bytes.now)) }
{
    let kind = kind(depth, bytes);
    if is_type(kind) {
        let (ty, rest) = value_type(alloc, depth, bytes)?;
        return Ok((Inside::Type(ty), rest));
    }
    if kind == STAR {
        let (target, rest) = pointer(alloc, depth, bytes)?;
        return Ok((Inside::Pointer(target), rest));
    }
    let (value, rest) = value_inside(alloc, depth, bytes)?;
    Ok((Inside::Value(value), rest))
}

#[cycle(exprs)]
#[tactic(auto, using(c_lexemes::proofs::Opening::openings))]
fn inside_in_parens(alloc: Global, depth: u16, bytes: &[u8]) -> Result<(Inside, &[u8]), Fault<'_>>
    ensures { Gives inside_of result (reads_at depth (symbols.parens symbols.an_inside) (pieces bytes.now)) }
{
    let (deeper, rest) = open(depth, b'(', bytes)?;
    let (inside, rest) = inside(alloc, deeper, rest)?;
    let rest = close(deeper, b')', rest)?;
    Ok((inside, rest))
}

/// The steps and the tail behind `(*E)`.
#[cycle(exprs)]
fn pointer_and_tail(
    alloc: Global,
    depth: u16,
    target: CExpr,
    bytes: &[u8],
) -> Result<(CExpr, &[u8]), Fault<'_>>
    ensures { Gives expr_of result (mapped (rules.inside_value (symbols.pointer_inside (expr_of target))) (reads_at depth (rules.behind_inside 0) (pieces bytes.now))) }
{
    let ((steps, tail), rest) = steps_and_tail(alloc, depth, bytes)?;
    Ok((pointed_value(alloc, target, steps, tail)?, rest))
}

/// The operand of a cast.
#[cycle(exprs)]
fn cast_operand(
    alloc: Global,
    depth: u16,
    ty: CType,
    bytes: &[u8],
) -> Result<(CExpr, &[u8]), Fault<'_>>
    ensures { Gives expr_of result (mapped (rules.inside_value (symbols.type_inside ty)) (reads_at depth (rules.behind_inside 1) (pieces bytes.now))) }
{
    let (operand, rest) = expression(alloc, depth, bytes)?;
    Ok((cast_node(alloc, ty, operand)?, rest))
}

/// The tail behind a value.
#[cycle(exprs)]
fn value_and_tail(
    alloc: Global,
    depth: u16,
    value: CExpr,
    bytes: &[u8],
) -> Result<(CExpr, &[u8]), Fault<'_>>
    ensures { Gives expr_of result (mapped (rules.inside_value (symbols.value_inside_it (expr_of value))) (reads_at depth (rules.behind_inside 2) (pieces bytes.now))) }
{
    let (tail, rest) = tail(alloc, depth, bytes)?;
    Ok((with_tail(alloc, value, tail)?, rest))
}

/// What stands behind two parentheses: the operand of a cast, or the tail.
#[cycle(exprs)]
fn behind_inside(
    alloc: Global,
    depth: u16,
    inside: Inside,
    bytes: &[u8],
) -> Result<(CExpr, &[u8]), Fault<'_>>
    ensures { Gives expr_of result (inside_outcome depth inside (pieces bytes.now)) }
{
    match inside {
        Inside::Pointer(target) => pointer_and_tail(alloc, depth, target, bytes),
        Inside::Type(ty) => cast_operand(alloc, depth, ty, bytes),
        Inside::Value(value) => value_and_tail(alloc, depth, value, bytes),
    }
}

/// A cast, or an operator whose first operand is in parentheses.
#[cycle(exprs)]
fn cast_or_tail(alloc: Global, depth: u16, bytes: &[u8]) -> Result<(CExpr, &[u8]), Fault<'_>>
    ensures { Gives expr_of result (reads_at depth rules.cast_or_tail (pieces bytes.now)) }
{
    let (inside, rest) = inside_in_parens(alloc, depth, bytes)?;
    behind_inside(alloc, depth, inside, rest)
}
