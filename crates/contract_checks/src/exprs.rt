//! The checks of expressions, added to those so far.

ghost use Rattle.std.specs.Prelude.{◌≡◌, ◌++◌, map, OnOk};
ghost use Rattle.core_tree.specs.Checks.{expr_checks};
ghost use Rattle.core_tree.specs.View.{expr_of, link_of, step_of};
ghost use Rattle.contract_checks.specs.Parts.{links_checks, step_checks, steps_checks};

use core_tree::{Check, CoreExpr, CoreKind, CoreLink, CoreStep};
use iv_words::{Memory, Seq};

pub(crate) fn add_all(checks: &Seq<Check>, found: &mut Seq<Check>) -> Result<(), Memory>
    ensures { OnOk result (found.new ≡ found.old ++ checks.now) }
{
    for check in checks.iter() {
        found.push(*check)?;
    }
    Ok(())
}

/// The checks of an expression: those of an operator between its operands.
#[cycle(exprs)]
pub(crate) fn add_expr(e: &CoreExpr, found: &mut Seq<Check>) -> Result<(), Memory>
    ensures { OnOk result (found.new ≡ found.old ++ expr_checks (expr_of e.now)) }
{
    match &e.kind {
        CoreKind::Number(_) | CoreKind::Outcome => add_all(&e.checks, found),
        CoreKind::Local(_) | CoreKind::AreaName(_) => add_all(&e.checks, found),
        CoreKind::Cast(operand) => add_form(&e.checks, operand, found),
        CoreKind::ToIx(operand) => add_form(&e.checks, operand, found),
        CoreKind::WrapIx(operand) => add_form(&e.checks, operand, found),
        CoreKind::MakeBits(operand) => add_form(&e.checks, operand, found),
        CoreKind::Raw(operand) => add_form(&e.checks, operand, found),
        CoreKind::Prefix(_, operand) => add_form(&e.checks, operand, found),
        CoreKind::Set(bits, _, value) => {
            add_form(&e.checks, bits, found)?;
            add_expr(value, found)
        }
        CoreKind::Chain(first, links) => {
            add_expr(first, found)?;
            add_links(links, found)?;
            add_all(&e.checks, found)
        }
        CoreKind::Postfix(base, steps) => {
            add_expr(base, found)?;
            add_steps(steps, found)?;
            add_all(&e.checks, found)
        }
        CoreKind::Cond(test, first, second) => {
            add_expr(test, found)?;
            add_form(&e.checks, first, found)?;
            add_expr(second, found)
        }
    }
}

/// The checks of a form, and then those of its operand.
#[cycle(exprs)]
fn add_form(own: &Seq<Check>, operand: &CoreExpr, found: &mut Seq<Check>) -> Result<(), Memory>
    ensures { OnOk result (found.new ≡ found.old ++ (own.now ++ expr_checks (expr_of operand.now))) }
{
    add_all(own, found)?;
    add_expr(operand, found)
}

#[cycle(exprs)]
fn add_links(links: &Seq<CoreLink>, found: &mut Seq<Check>) -> Result<(), Memory>
    ensures { OnOk result (found.new ≡ found.old ++ links_checks (map link_of links.now)) }
{
    for link in links.iter() {
        add_form(&link.checks, &link.right, found)?;
    }
    Ok(())
}

#[cycle(exprs)]
fn add_steps(steps: &Seq<CoreStep>, found: &mut Seq<Check>) -> Result<(), Memory>
    ensures { OnOk result (found.new ≡ found.old ++ steps_checks (map step_of steps.now)) }
{
    for step in steps.iter() {
        add_step(step, found)?;
    }
    Ok(())
}

/// The checks of an index; a step has none of its own.
#[cycle(exprs)]
fn add_step(step: &CoreStep, found: &mut Seq<Check>) -> Result<(), Memory>
    ensures { OnOk result (found.new ≡ found.old ++ step_checks (step_of step.now)) }
{
    match step {
        CoreStep::Field(_, _) => Ok(()),
        CoreStep::Index(index, _) => add_expr(index, found),
    }
}
