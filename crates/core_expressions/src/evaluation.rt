//! The values of expressions, from left to right. They change nothing but the steps that are left.

ghost use Rattle.std.specs.Prelude.{map};
ghost use Rattle.std.specs.Option.{option_map};
ghost use Rattle.area_types.specs.View.{type_of};
ghost use Rattle.core_tree.specs.Cores.{core_of};
ghost use Rattle.core_tree.specs.View.{expr_of, link_of, step_of};
ghost use Rattle.core_meaning.specs.Expressions as meaning;
ghost use Rattle.core_state.specs.State.{value_of};
ghost use Rattle.core_expressions.specs.Chains.{link_from, chain_from, step_from, steps_from};
ghost use Rattle.core_expressions.specs.Forms.{unary_answer};
ghost use Rattle.core_expressions.specs.Operands.{of_number_by};
ghost use Rattle.core_expressions.specs.Reads.{Reads};
ghost use Rattle.core_expressions.specs.Scopes.{core_in, outcome_in, part_of, Gives};

use crate::answers::{Unary, cast_to, formless, index_to, operation, prefix_operation, wrapped_to};
use crate::chains::{Joint, formed, joint_of, type_after, type_of};
use crate::operands::{answered, chosen, decided, negated, operated, set_in};
use crate::reads::{cell, element_of, field_of, outcome_of, read_area, read_name};
use crate::scope::Scope;
use area_types::ValueType;
use core_state::{Program, State, Value};
use core_tree::{Check, CoreExpr, CoreKind, CoreLink, CoreStep};
use int_ops::Op;
use iv_words::Seq;
use ivory_tree::PrefixOp;
use run_world::{Stopped, World};
use std::alloc::Global;

/// The value of an expression; `outcome` is the procedure's result, where `result` may be named.
pub fn eval(
    alloc: Global,
    program: &Program,
    state: &State,
    world: &mut World,
    outcome: &Option<Value>,
    e: &CoreExpr,
) -> Result<Value, Stopped>
    ensures { Reads program.now value_of (meaning.eval (core_of program.now) (option_map value_of outcome.now) (expr_of e.now)) state.now world.old result world.new }
{
    let scope = Scope {
        program,
        state,
        outcome,
    };
    value(alloc, &scope, world, e)
}

#[cycle(values)]
fn value(alloc: Global, scope: &Scope, world: &mut World, e: &CoreExpr) -> Result<Value, Stopped>
    ensures { Gives scope.now value_of (part_of scope.now (expr_of e.now)) world.old result world.new }
{
    let checks = e.checks.as_slice();
    match &e.kind {
        CoreKind::Number(v) => Ok(Value::Num(*v)),
        CoreKind::Outcome => outcome_of(alloc, scope),
        CoreKind::Local(name) => read_name(alloc, scope, *name as usize),
        CoreKind::AreaName(area) => read_area(alloc, scope, *area as usize),
        CoreKind::Cast(x) => of_number(alloc, scope, world, x.get(), cast_to(&e.ty), checks),
        CoreKind::ToIx(x) => of_number(alloc, scope, world, x.get(), index_to(&e.ty), checks),
        CoreKind::WrapIx(x) => of_number(alloc, scope, world, x.get(), wrapped_to(&e.ty), checks),
        CoreKind::MakeBits(x) => {
            of_number(alloc, scope, world, x.get(), Some(Unary::Itself), checks)
        }
        CoreKind::Raw(x) => of_number(alloc, scope, world, x.get(), Some(Unary::Itself), checks),
        CoreKind::Set(bits, field, number) => match scope.program.layout(type_of(bits.get())) {
            None => Err(formless()),
            Some(layout) => match value(alloc, scope, world, bits.get()) {
                Err(stopped) => Err(stopped),
                Ok(word) => {
                    let number = value(alloc, scope, world, number.get());
                    set_in(scope, world, layout, *field, checks, word, number)
                }
            },
        },
        CoreKind::Prefix(op, x) => match op {
            PrefixOp::Neg => {
                let form = prefix_operation(Op::Neg, type_of(x.get()));
                of_number(alloc, scope, world, x.get(), form, checks)
            }
            PrefixOp::Flip => {
                let form = prefix_operation(Op::Not, type_of(x.get()));
                of_number(alloc, scope, world, x.get(), form, checks)
            }
            PrefixOp::Not => negation(alloc, scope, world, x.get()),
            PrefixOp::Deref => dereference(alloc, scope, world, x.get()),
        },
        CoreKind::Chain(first, links) => {
            let ty = type_of(first.get());
            if !formed(ty, links) {
                return Err(formless());
            }
            match value(alloc, scope, world, first.get()) {
                Err(stopped) => Err(stopped),
                Ok(left) => chain(alloc, scope, world, links, left, ty),
            }
        }
        CoreKind::Postfix(base, steps) => match value(alloc, scope, world, base.get()) {
            Err(stopped) => Err(stopped),
            Ok(whole) => postfix(alloc, scope, world, steps, whole, type_of(base.get())),
        },
        CoreKind::Cond(test, first, second) => {
            let test = value(alloc, scope, world, test.get());
            match decided(world, test) {
                Err(stopped) => Err(stopped),
                Ok(true) => value(alloc, scope, world, first.get()),
                Ok(false) => value(alloc, scope, world, second.get()),
            }
        }
    }
}

/// A form on one number.
#[cycle(values)]
fn of_number(
    alloc: Global,
    scope: &Scope,
    world: &mut World,
    e: &CoreExpr,
    form: Option<Unary>,
    checks: &[Check],
) -> Result<Value, Stopped>
    ensures { Gives scope.now value_of (of_number_by (core_in scope.now) checks.now (option_map unary_answer form) (part_of scope.now (expr_of e.now))) world.old result world.new }
{
    let Some(form) = form else {
        return Err(formless());
    };
    let x = value(alloc, scope, world, e)?;
    answered(scope, world, form, checks, &x)
}

/// `!e`.
#[cycle(values)]
fn negation(alloc: Global, scope: &Scope, world: &mut World, e: &CoreExpr) -> Result<Value, Stopped>
    ensures { Gives scope.now value_of (meaning.negated (core_in scope.now) (part_of scope.now (expr_of e.now))) world.old result world.new }
{
    let x = value(alloc, scope, world, e)?;
    negated(scope, world, &x)
}

/// `*e`.
#[cycle(values)]
fn dereference(
    alloc: Global,
    scope: &Scope,
    world: &mut World,
    e: &CoreExpr,
) -> Result<Value, Stopped>
    ensures { Gives scope.now value_of (meaning.number_behind (core_in scope.now) (part_of scope.now (expr_of e.now))) world.old result world.new }
{
    let x = value(alloc, scope, world, e)?;
    cell(scope, world, &x)
}

/// The operators of a chain, one after another.
#[cycle(values)]
fn chain(
    alloc: Global,
    scope: &Scope,
    world: &mut World,
    links: &Seq<CoreLink>,
    left: Value,
    ty: &ValueType,
) -> Result<Value, Stopped>
    ensures { Gives scope.now value_of (chain_from (core_in scope.now) (outcome_in scope.now) (value_of left) (type_of ty.now) (map link_of links.now)) world.old result world.new }
{
    let mut x = left;
    let mut before = ty;
    for link in links.as_slice() {
        x = operator(alloc, scope, world, link, &x, before)?;
        before = &link.ty;
    }
    Ok(x)
}

/// An operator of a chain, behind the value of its left operand.
#[cycle(values)]
fn operator(
    alloc: Global,
    scope: &Scope,
    world: &mut World,
    link: &CoreLink,
    x: &Value,
    ty: &ValueType,
) -> Result<Value, Stopped>
    ensures { Gives scope.now value_of (link_from (core_in scope.now) (outcome_in scope.now) (value_of x.now) (type_of ty.now) (link_of link.now)) world.old result world.new }
{
    match joint_of(link.op) {
        Joint::Either => {
            if chosen(world, x)? {
                return Ok(Value::Num(1));
            }
            value(alloc, scope, world, &link.right)
        }
        Joint::Both => {
            if chosen(world, x)? {
                return value(alloc, scope, world, &link.right);
            }
            Ok(Value::Num(0))
        }
        Joint::Numbers(op) => {
            let Some(form) = operation(op, ty) else {
                return Err(formless());
            };
            let y = value(alloc, scope, world, &link.right)?;
            operated(scope, world, form, link.checks.as_slice(), x, &y)
        }
    }
}

/// The fields and elements behind an operand, one after another.
#[cycle(values)]
fn postfix(
    alloc: Global,
    scope: &Scope,
    world: &mut World,
    steps: &Seq<CoreStep>,
    whole: Value,
    ty: &ValueType,
) -> Result<Value, Stopped>
    ensures { Gives scope.now value_of (steps_from (core_in scope.now) (outcome_in scope.now) (value_of whole) (type_of ty.now) (map step_of steps.now)) world.old result world.new }
{
    let mut x = whole;
    let mut before = ty;
    for step in steps.as_slice() {
        x = part(alloc, scope, world, step, &x, before)?;
        before = type_after(step);
    }
    Ok(x)
}

/// A field or an element of what stands before it.
#[cycle(values)]
fn part(
    alloc: Global,
    scope: &Scope,
    world: &mut World,
    step: &CoreStep,
    x: &Value,
    ty: &ValueType,
) -> Result<Value, Stopped>
    ensures { Gives scope.now value_of (step_from (core_in scope.now) (outcome_in scope.now) (value_of x.now) (type_of ty.now) (step_of step.now)) world.old result world.new }
{
    match step {
        CoreStep::Field(field, _) => field_of(alloc, scope, world, x, ty, *field),
        CoreStep::Index(index, _) => {
            let i = value(alloc, scope, world, index)?;
            element_of(alloc, scope, world, x, &i)
        }
    }
}

/// The values of arguments, in order.
pub fn eval_all(
    alloc: Global,
    program: &Program,
    state: &State,
    world: &mut World,
    es: &[CoreExpr],
) -> Result<Seq<Value>, Stopped>
    ensures { Reads program.now (map value_of) (meaning.eval_all (core_of program.now) (map expr_of es.now)) state.now world.old result world.new }
{
    let mut values = Seq::new(alloc);
    for e in es {
        values.push(eval(alloc, program, state, world, &None, e)?)?;
    }
    Ok(values)
}
