//! Builds expressions and places of what was read.

ghost use Rattle.std.specs.Prelude.{◌≡◌, IfOk};
ghost use Rattle.c_ast.specs.Syntax as syntax;
ghost use Rattle.c_ast.specs.View.{expr_of, place_of};
ghost use Rattle.c_grammar.specs.ExpressionRules as rules;
ghost use Rattle.c_expression_parser.specs.Views.{step_of, steps_of, tail_of};

use crate::parts::{Side, Step, Tail};
use c_ast::{CBinary, CExpr, CPlace, CType, CUnary, Suffix};
use iv_words::{Box, Memory, Seq, Word};
use std::alloc::Global;

#[tactic(auto, using(c_ast::proofs::View::number_is))]
pub fn number_node(value: u64, suffix: Suffix) -> CExpr
    ensures { expr_of result ≡ syntax.Number value suffix }
{
    CExpr::Number(value, suffix)
}

#[tactic(auto, using(c_ast::proofs::View::read_is))]
pub fn read_node(place: CPlace) -> CExpr
    ensures { expr_of result ≡ syntax.Read (place_of place) }
{
    CExpr::Read(place)
}

#[tactic(auto, using(c_ast::proofs::View::address_is))]
pub fn address_node(place: CPlace) -> CExpr
    ensures { expr_of result ≡ syntax.Address (place_of place) }
{
    CExpr::Address(place)
}

#[tactic(auto, using(c_ast::proofs::View::unary_is))]
pub fn unary_node(alloc: Global, op: CUnary, operand: CExpr) -> Result<CExpr, Memory>
    ensures { IfOk result (λ e. expr_of e ≡ syntax.Unary op (expr_of operand)) }
{
    Ok(CExpr::Unary(op, Box::new(alloc, operand)?))
}

#[tactic(auto, using(c_ast::proofs::View::binary_is))]
fn binary_node(alloc: Global, op: CBinary, left: CExpr, right: CExpr) -> Result<CExpr, Memory>
    ensures { IfOk result (λ e. expr_of e ≡ syntax.Binary op (expr_of left) (expr_of right)) }
{
    let left = Box::new(alloc, left)?;
    Ok(CExpr::Binary(op, left, Box::new(alloc, right)?))
}

#[tactic(auto, using(c_ast::proofs::View::cast_is))]
pub fn cast_node(alloc: Global, ty: CType, operand: CExpr) -> Result<CExpr, Memory>
    ensures { IfOk result (λ e. expr_of e ≡ syntax.Cast ty (expr_of operand)) }
{
    Ok(CExpr::Cast(ty, Box::new(alloc, operand)?))
}

#[tactic(auto, using(c_ast::proofs::View::cond_is))]
fn cond_node(alloc: Global, test: CExpr, first: CExpr, second: CExpr) -> Result<CExpr, Memory>
    ensures { IfOk result (λ e. expr_of e ≡ syntax.Cond (expr_of test) (expr_of first) (expr_of second)) }
{
    let test = Box::new(alloc, test)?;
    let first = Box::new(alloc, first)?;
    Ok(CExpr::Cond(test, first, Box::new(alloc, second)?))
}

/// An operand with what stands behind it.
pub fn with_tail(alloc: Global, operand: CExpr, tail: Tail) -> Result<CExpr, Memory>
    ensures { IfOk result (λ e. expr_of e ≡ rules.with_tail (expr_of operand) (tail_of tail)) }
{
    match tail {
        Side::Left((op, right)) => binary_node(alloc, op, operand, right),
        Side::Right((first, second)) => cond_node(alloc, operand, first, second),
    }
}

#[tactic(auto, using(c_ast::proofs::View::var_is))]
fn var_node(name: Word) -> CPlace
    ensures { place_of result ≡ syntax.Var name }
{
    CPlace::Var(name)
}

#[tactic(auto, using(c_ast::proofs::View::at_is))]
fn at_node(alloc: Global, pointer: CExpr) -> Result<CPlace, Memory>
    ensures { IfOk result (λ p. place_of p ≡ syntax.At (expr_of pointer)) }
{
    Ok(CPlace::At(Box::new(alloc, pointer)?))
}

#[tactic(auto, using(c_ast::proofs::View::member_is))]
fn member_node(alloc: Global, place: CPlace, name: Word) -> Result<CPlace, Memory>
    ensures { IfOk result (λ p. place_of p ≡ syntax.Member (place_of place) name) }
{
    Ok(CPlace::Member(Box::new(alloc, place)?, name))
}

#[tactic(auto, using(c_ast::proofs::View::element_is))]
fn element_node(alloc: Global, place: CPlace, index: CExpr) -> Result<CPlace, Memory>
    ensures { IfOk result (λ p. place_of p ≡ syntax.Element (place_of place) (expr_of index)) }
{
    let place = Box::new(alloc, place)?;
    Ok(CPlace::Element(place, Box::new(alloc, index)?))
}

fn with_step(alloc: Global, place: CPlace, step: Step) -> Result<CPlace, Memory>
    ensures { IfOk result (λ p. place_of p ≡ rules.step_on (place_of place) (step_of step)) }
{
    let Step { name, index } = step;
    let member = member_node(alloc, place, name)?;
    match index {
        Some(index) => element_node(alloc, member, index),
        None => Ok(member),
    }
}

fn with_steps(alloc: Global, base: CPlace, steps: Seq<Step>) -> Result<CPlace, Memory>
    ensures { IfOk result (λ p. place_of p ≡ rules.steps_on (place_of base) (steps_of steps)) }
{
    let mut place = base;
    for step in steps.into_vec() {
        place = with_step(alloc, place, step)?;
    }
    Ok(place)
}

/// A name and the steps behind it.
pub fn named_place(alloc: Global, name: Word, steps: Seq<Step>) -> Result<CPlace, Memory>
    ensures { IfOk result (λ p. place_of p ≡ rules.named_place name (steps_of steps)) }
{
    with_steps(alloc, var_node(name), steps)
}

/// What a pointer points to, and the steps behind it.
pub fn pointed_place(alloc: Global, pointer: CExpr, steps: Seq<Step>) -> Result<CPlace, Memory>
    ensures { IfOk result (λ p. place_of p ≡ rules.place_behind (expr_of pointer) (steps_of steps)) }
{
    let base = at_node(alloc, pointer)?;
    with_steps(alloc, base, steps)
}

/// The value of what a pointer points to, with the steps and what stands behind.
pub fn pointed_value(
    alloc: Global,
    pointer: CExpr,
    steps: Seq<Step>,
    tail: Tail,
) -> Result<CExpr, Memory>
    ensures { IfOk result (λ e. expr_of e ≡ rules.with_tail (syntax.Read (rules.place_behind (expr_of pointer) (steps_of steps))) (tail_of tail)) }
{
    let place = pointed_place(alloc, pointer, steps)?;
    with_tail(alloc, read_node(place), tail)
}
