//! The static type of an expression or place, in the scope of a state.

ghost use Rattle.std.specs.Prelude.{◌≡◌};
ghost use Rattle.c_ast.specs.Syntax as syntax;
ghost use Rattle.c_ast.specs.View.{expr_of, place_of};
ghost use Rattle.c_meaning.specs.Expressions as meaning;
ghost use Rattle.c_expressions.specs.Programs.{program_of};
ghost use Rattle.c_expressions.specs.State.{state_of};
ghost use Rattle.c_expressions.specs.Types.{value_type, place_type};

use crate::names::look_up;
use crate::program::Program;
use crate::state::State;
use crate::types::{
    PlaceType, ValueType, of_address, of_binary, of_cast, of_choice, of_constant, of_element,
    of_member, of_name, of_pointee, of_read, of_unary,
};
use c_ast::{CExpr, CPlace};
use iv_words::Word;

/// The type of a name.
fn name_type<'a>(program: &'a Program, state: &State<'a>, name: &Word) -> PlaceType<'a>
    ensures { place_type result ≡ meaning.static_place_type (program_of program.now) (state_of state.now) (syntax.Var name.now) }
{
    of_name(program, look_up(program, state, name))
}

#[cycle(types)]
pub(crate) fn static_type<'a>(
    program: &'a Program,
    state: &State<'a>,
    e: &'a CExpr,
) -> ValueType<'a>
    ensures { value_type result ≡ meaning.static_type (program_of program.now) (state_of state.now) (expr_of e.now) }
{
    let t = program.target();
    match e {
        CExpr::Number(value, suffix) => of_constant(t, *suffix, *value),
        CExpr::Read(place) => of_read(static_place_type(program, state, place)),
        CExpr::Address(place) => of_address(static_place_type(program, state, place)),
        CExpr::Unary(op, e) => of_unary(t, *op, static_type(program, state, e.get())),
        CExpr::Binary(op, left, right) => {
            let a = static_type(program, state, left.get());
            let b = static_type(program, state, right.get());
            of_binary(t, *op, a, b)
        }
        CExpr::Cast(to, e) => of_cast(to, static_type(program, state, e.get())),
        CExpr::Cond(test, first, second) => {
            let test = static_type(program, state, test.get());
            let a = static_type(program, state, first.get());
            let b = static_type(program, state, second.get());
            of_choice(t, test, a, b)
        }
    }
}

#[cycle(types)]
pub(crate) fn static_place_type<'a>(
    program: &'a Program,
    state: &State<'a>,
    place: &'a CPlace,
) -> PlaceType<'a>
    ensures { place_type result ≡ meaning.static_place_type (program_of program.now) (state_of state.now) (place_of place.now) }
{
    match place {
        CPlace::Var(name) => name_type(program, state, name),
        CPlace::At(pointer) => of_pointee(program, static_type(program, state, pointer.get())),
        CPlace::Member(place, name) => {
            of_member(name, static_place_type(program, state, place.get()))
        }
        CPlace::Element(place, index) => {
            let array = static_place_type(program, state, place.get());
            of_element(array, static_type(program, state, index.get()))
        }
    }
}
