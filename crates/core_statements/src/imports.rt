//! Calls of imports.

ghost use Rattle.std.specs.Prelude.{map, slice_get};
ghost use Rattle.std.specs.Option.{option_map};
ghost use Rattle.core_tree.specs.Cores.{core_of};
ghost use Rattle.core_tree.specs.View.{import_of};
ghost use Rattle.core_meaning.specs.Imports as meaning;
ghost use Rattle.core_meaning.specs.Imports.{outside};
ghost use Rattle.core_meaning.specs.Checks.{on_some};
ghost use Rattle.core_state.specs.State.{value_of};
ghost use Rattle.core_statements.specs.Parts.{Does};
ghost use Rattle.core_statements.specs.Replies.{asking, asking_by, targets_of};

use crate::parts::{Run, formless};
use crate::pieces::pieces_of;
use crate::replies::replied;
use crate::shapes::{shape_of, targets_of};
use core_state::{Program, Value, Written};
use core_tree::CoreImport;
use iv_words::Seq;
use run_records::{Piece, Plain};
use run_world::Stopped;
use std::alloc::Global;

/// The outside sees the call, with its step, and replies.
fn asking(
    alloc: Global,
    program: &Program,
    run: &mut Run,
    import: &CoreImport,
    args: &[Value],
    targets: &[Option<Written>],
    pieces: Seq<Piece>,
    shape: &Seq<Plain>,
) -> Result<Option<Value>, Stopped>
    ensures { Does program.now (option_map value_of) (asking (core_of program.now) (import_of import.now) (targets_of targets.now) (map value_of args.now) pieces shape.now) run.old run.new result }
{
    run.world.tick()?;
    let name = import.name.copy(alloc)?;
    let reply = run
        .world
        .import_call(alloc, name, pieces, shape.as_slice())?;
    Ok(replied(
        alloc,
        &mut run.state,
        import.result,
        targets,
        args,
        reply.as_slice(),
    )?)
}

/// The call with these pieces, where its replies have a shape.
fn asking_by(
    alloc: Global,
    program: &Program,
    run: &mut Run,
    import: &CoreImport,
    args: &[Value],
    pieces: Seq<Piece>,
) -> Result<Option<Value>, Stopped>
    ensures { Does program.now (option_map value_of) (asking_by (core_of program.now) (import_of import.now) (map value_of args.now) pieces) run.old run.new result }
{
    let targets = targets_of(alloc, program, import.params.as_slice())?;
    let writes = targets.as_slice();
    match shape_of(alloc, import.result, writes)? {
        None => Err(formless()),
        Some(shape) => asking(alloc, program, run, import, args, writes, pieces, &shape),
    }
}

/// The call of an import with the values of its arguments.
fn outside(
    alloc: Global,
    program: &Program,
    run: &mut Run,
    import: &CoreImport,
    args: &[Value],
) -> Result<Option<Value>, Stopped>
    ensures { Does program.now (option_map value_of) (meaning.outside (core_of program.now) (import_of import.now) (map value_of args.now)) run.old run.new result }
{
    match pieces_of(alloc, &run.state, args)? {
        None => Err(formless()),
        Some(pieces) => asking_by(alloc, program, run, import, args, pieces),
    }
}

/// The call of the import of that number.
pub fn call_import(
    alloc: Global,
    program: &Program,
    run: &mut Run,
    number: u32,
    args: &[Value],
) -> Result<Option<Value>, Stopped>
    ensures { Does program.now (option_map value_of) (on_some (core_of program.now) (slice_get (core_of program.now).imports number) (λ i. outside (core_of program.now) i (map value_of args.now))) run.old run.new result }
{
    match program.imports().get(number as usize) {
        None => Err(formless()),
        Some(import) => outside(alloc, program, run, import, args),
    }
}
