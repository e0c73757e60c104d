//! The values of initializers.

ghost use Rattle.c_ast.specs.View.{init_of, inits_of};
ghost use Rattle.c_meaning.specs.Initializers as meaning;
ghost use Rattle.c_operators.specs.Values.{Gives};
ghost use Rattle.c_expressions.specs.Places.{Excused};
ghost use Rattle.c_expressions.specs.Programs.{program_of};
ghost use Rattle.c_expressions.specs.State.{state_of};
ghost use Rattle.c_statements.specs.Given.{given_of, givens_of};

use crate::trouble::room;
use c_ast::CInit;
use c_expressions::{Program, State, eval};
use c_operators::{Trouble, Value};
use iv_words::Seq;
use std::alloc::Global;

/// The values that an initializer gives: one, `{0}`, or those of its elements in order.
#[derive(Drop)]
pub enum Given<'a> {
    One(Value<'a>),
    Zero,
    Braces(Seq<Given<'a>>),
}

/// The values of an initializer, from left to right.
#[cycle(initial)]
pub fn eval_init<'a>(
    alloc: Global,
    program: &'a Program,
    state: &State<'a>,
    init: &'a CInit,
) -> Result<Given<'a>, Trouble>
    ensures { Gives Excused given_of (meaning.eval_init (program_of program.now) (init_of init.now) (state_of state.now)) result }
{
    match init {
        CInit::One(e) => Ok(Given::One(eval(program, state, e)?)),
        CInit::Zero => Ok(Given::Zero),
        CInit::Many(inits) => Ok(Given::Braces(eval_inits(alloc, program, state, inits)?)),
    }
}

#[cycle(initial)]
fn eval_inits<'a>(
    alloc: Global,
    program: &'a Program,
    state: &State<'a>,
    inits: &'a Seq<CInit>,
) -> Result<Seq<Given<'a>>, Trouble>
    ensures { Gives Excused givens_of (meaning.eval_inits (program_of program.now) (inits_of inits.now) (state_of state.now)) result }
{
    let mut values = Seq::new(alloc);
    for init in inits.iter() {
        let value = eval_init(alloc, program, state, init)?;
        room(values.push(value))?;
    }
    Ok(values)
}
