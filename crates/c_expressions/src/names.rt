//! What a name stands for: a name of the function hides one of file scope.

ghost use Rattle.std.specs.Prelude.{◌≡◌, map};
ghost use Rattle.std.specs.Option.{option_map};
ghost use Rattle.c_ast.specs.Names.{named};
ghost use Rattle.c_ast.specs.View.{object_of};
ghost use Rattle.c_expressions.specs.Names.{meaning_of, in_slot, in_file, meant_of};
ghost use Rattle.c_expressions.specs.Programs.{program_of};
ghost use Rattle.c_expressions.specs.State.{slot_of, state_of, frame_of};

use crate::program::Program;
use crate::state::{Local, Slot, State};
use c_ast::CObject;
use c_objects::Base;
use c_operators::{Value, base_ref};
use iv_words::Word;

/// Nothing, a value, or an object with its const flag, its number and its type.
#[derive(Clone, Copy, Drop)]
pub(crate) enum Meant<'a> {
    Nothing,
    Value(Value<'a>),
    Object(bool, usize, Base<'a>),
}

/// The latest of a name.
fn find_local<'a>(locals: &[Local<'a>], name: &Word) -> Option<Slot<'a>>
    ensures { option_map slot_of result ≡ named (frame_of locals.now) name.now }
{
    let mut found = None;
    for local in locals {
        if *local.name == *name {
            found = Some(local.slot);
        }
    }
    found
}

/// The first of a name among the objects of file scope.
fn find_object<'a>(objects: &'a [CObject], name: &Word) -> Meant<'a>
    ensures { meant_of result ≡ in_file 0 (map object_of objects.now) name.now }
{
    for number in 0..objects.len() {
        let object = &objects[number];
        if object.name == *name {
            return Meant::Object(object.constant, number, base_ref(&object.base));
        }
    }
    Meant::Nothing
}

fn in_slot<'a>(slot: Slot<'a>) -> Meant<'a>
    ensures { meant_of result ≡ in_slot (slot_of slot.entry) }
{
    match slot {
        Slot::Holding(v) => Meant::Value(v),
        Slot::Naming(number, base) => Meant::Object(false, number, base),
    }
}

/// What a name stands for in a state.
pub(crate) fn look_up<'a>(program: &'a Program, state: &State<'a>, name: &Word) -> Meant<'a>
    ensures { meant_of result ≡ meaning_of (program_of program.now) (state_of state.now) name.now }
{
    match find_local(state.own.as_slice(), name) {
        Some(slot) => in_slot(slot),
        None => find_object(program.unit().objects.as_slice(), name),
    }
}
