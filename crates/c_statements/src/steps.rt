//! Expressions with the step of the statement in which they stand.

ghost use Rattle.std.specs.Prelude.{map};
ghost use Rattle.step_semantics.specs.Steps.{give};
ghost use Rattle.c_ast.specs.View.{expr_of};
ghost use Rattle.c_meaning.specs.Statements.{with_value, with_truth};
ghost use Rattle.c_meaning.specs.Expressions as expressions;
ghost use Rattle.c_meaning.specs.Values as meaning;
ghost use Rattle.c_meaning.specs.Values.{on_ok};
ghost use Rattle.c_operators.specs.Values.{value_of, itself, Gives};
ghost use Rattle.c_expressions.specs.Places.{Excused};
ghost use Rattle.c_expressions.specs.State.{state_of};
ghost use Rattle.c_expressions.specs.Programs.{program_of};
ghost use Rattle.c_statements.specs.Parts.{Does};
ghost use Rattle.c_statements.specs.Steps.{with_arguments};

use crate::parts::Run;
use crate::trouble::given;
use c_ast::CExpr;
use c_expressions::{Program, eval, eval_all};
use c_operators::{Trouble, Value, is_true};
use iv_words::Seq;
use run_world::Stopped;
use std::alloc::Global;

/// The value of an expression, and the step of its statement.
pub fn value_step<'a>(
    program: &'a Program,
    run: &mut Run<'a>,
    e: &'a CExpr,
) -> Result<Value<'a>, Stopped>
    ensures { Does program.now value_of (with_value (program_of program.now) (expr_of e.now) give) run.old run.new result }
{
    let v = given(eval(program, &run.state, e))?;
    run.world.tick()?;
    Ok(v)
}

fn truth_of<'a>(program: &'a Program, run: &Run<'a>, e: &'a CExpr) -> Result<bool, Trouble>
    ensures { Gives Excused itself (on_ok (expressions.eval (program_of program.now) (expr_of e.now) (state_of run.now.state)) meaning.is_true) result }
{
    is_true(eval(program, &run.state, e)?)
}

/// Whether it is true, and that step.
pub fn truth_step<'a>(
    program: &'a Program,
    run: &mut Run<'a>,
    e: &'a CExpr,
) -> Result<bool, Stopped>
    ensures { Does program.now itself (with_truth (program_of program.now) (expr_of e.now) give) run.old run.new result }
{
    let holds = given(truth_of(program, run, e))?;
    run.world.tick()?;
    Ok(holds)
}

/// The values of the arguments of a call, and its step.
pub fn argument_step<'a>(
    alloc: Global,
    program: &'a Program,
    run: &mut Run<'a>,
    args: &'a [CExpr],
) -> Result<Seq<Value<'a>>, Stopped>
    ensures { Does program.now (map value_of) (with_arguments (program_of program.now) (map expr_of args.now) give) run.old run.new result }
{
    let values = given(eval_all(alloc, program, &run.state, args))?;
    run.world.tick()?;
    Ok(values)
}
