//! What functions are entered with, and what they give back.

ghost use Rattle.std.specs.Prelude.{◌≡◌, map, Some, IfOk};
ghost use Rattle.step_semantics.specs.Control as control;
ghost use Rattle.c_meaning.specs.Places as places;
ghost use Rattle.c_meaning.specs.Runs as meaning;
ghost use Rattle.c_operators.specs.Values.{value_of, Gives};
ghost use Rattle.c_expressions.specs.Places.{Excused};
ghost use Rattle.c_expressions.specs.Programs.{program_of};
ghost use Rattle.c_expressions.specs.State.{frame_of, state_of};
ghost use Rattle.c_statements.specs.Parts.{control_of, called_of, Does};

use crate::leaves::no_value;
use c_ast::{CParam, CType};
use c_expressions::{Local, Program, Slot, State};
use c_operators::{Trouble, Value, as_assigned};
use c_statements::{Called, Control, Run, given};
use iv_words::{Memory, Seq};
use run_records::Reason;
use run_world::Stopped;
use std::alloc::Global;

/// The names of a function at its entry, each parameter with the value of its argument; the first stands last.
pub fn entry_frame<'a>(
    alloc: Global,
    params: &'a [CParam],
    args: &[Value<'a>],
) -> Result<Seq<Local<'a>>, Memory>
    ensures { IfOk result (λ frame. frame_of frame ≡ meaning.bound params.now (map value_of args.now)) }
{
    let mut frame = Seq::new(alloc);
    let many = params.len().min(args.len());
    for i in 0..many {
        let at = many - 1 - i;
        frame.push(Local {
            name: &params[at].name,
            slot: Slot::Holding(args[at]),
        })?;
    }
    Ok(frame)
}

/// A value, unless it is a pointer to an object that has ended.
fn alive<'a>(state: &State<'a>, v: Value<'a>) -> Result<Value<'a>, Trouble>
    ensures { Gives Excused value_of (places.alive (state_of state.now) (value_of v.entry)) result }
{
    match v {
        Value::Num(_, _) => Ok(v),
        Value::Ptr(_, _, to) => {
            if state.objects.is_live(to.object) {
                Ok(v)
            } else {
                Err(Trouble::Undefined(Reason::Dead))
            }
        }
    }
}

/// The value of a `return`, in the type of the result.
fn returned_value<'a>(
    program: &'a Program,
    run: &Run<'a>,
    ty: &'a CType,
    v: Value<'a>,
) -> Result<Called<'a>, Stopped>
    ensures { Does program.now called_of (meaning.function_value (program_of program.now) ty.now (control.Returned (Some (value_of v.entry)))) run.now run.now result }
{
    let converted = given(as_assigned(program.target(), ty, v))?;
    let value = given(alive(&run.state, converted))?;
    Ok(Called::Gave(value))
}

/// What a function gives back where control leaves its body.
pub fn function_value<'a>(
    program: &'a Program,
    run: &Run<'a>,
    ty: &'a CType,
    control: Control<'a>,
) -> Result<Called<'a>, Stopped>
    ensures { Does program.now called_of (meaning.function_value (program_of program.now) ty.now (control_of control.entry)) run.now run.now result }
{
    match control {
        Control::Broke => Err(no_value()),
        Control::Falls => match ty {
            CType::Void => Ok(Called::Nothing),
            CType::Value(_) | CType::Pointer(_, _) => Ok(Called::Missing),
        },
        Control::Returned(None) => match ty {
            CType::Void => Ok(Called::Nothing),
            CType::Value(_) | CType::Pointer(_, _) => Err(no_value()),
        },
        Control::Returned(Some(v)) => returned_value(program, run, ty, v),
    }
}
