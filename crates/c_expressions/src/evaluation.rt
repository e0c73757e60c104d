//! The values of expressions and places, from left to right.

ghost use Rattle.std.specs.Prelude.{◌≡◌, map};
ghost use Rattle.c_ast.specs.View.{expr_of, place_of};
ghost use Rattle.c_ast.specs.Syntax as syntax;
ghost use Rattle.c_meaning.specs.Expressions as meaning;
ghost use Rattle.c_meaning.specs.Places as places;
ghost use Rattle.c_operators.specs.Values.{value_of, Gives};
ghost use Rattle.c_expressions.specs.Programs.{program_of};
ghost use Rattle.c_expressions.specs.State.{state_of};
ghost use Rattle.c_expressions.specs.Places.{lvalue_of, Excused};
ghost use Rattle.c_expressions.specs.Types.{value_type};

use crate::following::{
    Left, address_at, as_common, binary_of, cast_of, constant_of, element_in, left_of, member_at,
    pointee_of, read_of, truth_of, unary_of,
};
use crate::lvalues::{Lvalue, place_of_name};
use crate::names::look_up;
use crate::program::Program;
use crate::state::State;
use crate::types::{ValueType, of_choice};
use crate::typing::static_type;
use c_ast::{CExpr, CPlace};
use c_operators::{Trouble, Value};
use iv_words::{Seq, Word};
use std::alloc::Global;

/// The place of a name.
fn eval_name<'a>(
    program: &'a Program,
    state: &State<'a>,
    name: &Word,
) -> Result<Lvalue<'a>, Trouble>
    ensures { Gives Excused lvalue_of (places.name_place (program_of program.now) (state_of state.now) name.now) result }
{
    place_of_name(program, look_up(program, state, name))
}

/// The type of `?:` with these operands.
fn choice_type<'a>(
    program: &'a Program,
    state: &State<'a>,
    test: &'a CExpr,
    first: &'a CExpr,
    second: &'a CExpr,
) -> ValueType<'a>
    ensures { value_type result ≡ meaning.static_type (program_of program.now) (state_of state.now) (syntax.Cond (expr_of test.now) (expr_of first.now) (expr_of second.now)) }
{
    let test = static_type(program, state, test);
    let first = static_type(program, state, first);
    let second = static_type(program, state, second);
    of_choice(program.target(), test, first, second)
}

/// The value of an expression.
#[cycle(values)]
pub fn eval<'a>(program: &'a Program, state: &State<'a>, e: &'a CExpr) -> Result<Value<'a>, Trouble>
    ensures { Gives Excused value_of (meaning.eval (program_of program.now) (expr_of e.now) (state_of state.now)) result }
{
    let t = program.target();
    match e {
        CExpr::Number(value, suffix) => constant_of(t, *suffix, *value),
        CExpr::Read(place) => read_of(t, state, eval_place(program, state, place)),
        CExpr::Address(place) => address_at(eval_place(program, state, place)),
        CExpr::Unary(op, e) => unary_of(t, *op, eval(program, state, e.get())),
        CExpr::Binary(op, left, right) => match left_of(*op, eval(program, state, left.get())) {
            Left::Settled(result) => result,
            Left::Open(v) => binary_of(t, *op, v, eval(program, state, right.get())),
        },
        CExpr::Cast(to, e) => cast_of(t, state, to, eval(program, state, e.get())),
        CExpr::Cond(test, first, second) => match truth_of(eval(program, state, test.get())) {
            Err(trouble) => Err(trouble),
            Ok(holds) => {
                let ty = choice_type(program, state, test.get(), first.get(), second.get());
                if holds {
                    as_common(t, ty, eval(program, state, first.get()))
                } else {
                    as_common(t, ty, eval(program, state, second.get()))
                }
            }
        },
    }
}

/// The place that an expression names.
#[cycle(values)]
pub fn eval_place<'a>(
    program: &'a Program,
    state: &State<'a>,
    place: &'a CPlace,
) -> Result<Lvalue<'a>, Trouble>
    ensures { Gives Excused lvalue_of (meaning.eval_place (program_of program.now) (place_of place.now) (state_of state.now)) result }
{
    let t = program.target();
    match place {
        CPlace::Var(name) => eval_name(program, state, name),
        CPlace::At(pointer) => pointee_of(program, eval(program, state, pointer.get())),
        CPlace::Member(place, name) => {
            member_at(t, name, eval_place(program, state, place.get()))
        }
        CPlace::Element(place, index) => match eval_place(program, state, place.get()) {
            Err(trouble) => Err(trouble),
            Ok(array) => element_in(t, array, eval(program, state, index.get())),
        },
    }
}

/// The values of expressions, in order.
pub fn eval_all<'a>(
    alloc: Global,
    program: &'a Program,
    state: &State<'a>,
    es: &'a [CExpr],
) -> Result<Seq<Value<'a>>, Trouble>
    ensures { Gives Excused (map value_of) (meaning.eval_all (program_of program.now) (map expr_of es.now) (state_of state.now)) result }
{
    let mut values = Seq::new(alloc);
    for e in es {
        match eval(program, state, e) {
            Err(trouble) => return Err(trouble),
            Ok(v) => {
                if values.push(v).is_err() {
                    return Err(Trouble::Memory);
                }
            }
        }
    }
    Ok(values)
}
