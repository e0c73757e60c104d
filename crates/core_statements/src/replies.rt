//! What is done with the reply to the call of an import.

ghost use Rattle.std.specs.Prelude.{◌≡◌, map, IfOk, OnOk};
ghost use Rattle.std.specs.Option.{option_map};
ghost use Rattle.core_meaning.specs.Imports as meaning;
ghost use Rattle.core_state.specs.State.{value_of, state_of};
ghost use Rattle.core_state.specs.Types.{written_of};
ghost use Rattle.core_statements.specs.Replies.{targets_of, Writes, written_all};

use core_state::{Numbers, State, Value, Written};
use iv_words::Memory;
use run_records::Plain;
use std::alloc::Global;

/// Writes the cells of one parameter, where they may be written, and passes over their numbers.
fn write_one<'a>(
    alloc: Global,
    state: &mut State,
    target: &Option<Written>,
    v: &Value,
    numbers: &mut Numbers<'a>,
) -> Result<(), Memory>
    ensures areas { OnOk result (Writes (meaning.written (option_map written_of target.now) (value_of v.now) numbers.old.rest.now) (state_of state.old) (state_of state.new)) }
    ensures rest { OnOk result (numbers.new.rest.now ≡ meaning.behind (option_map written_of target.now) numbers.old.rest.now) }
{
    match target {
        None => Ok(()),
        Some(ty) => {
            let held = numbers.filled(alloc, ty)?;
            if let Value::Ref(area, path) = v {
                state.put_at(*area, path, held);
            }
            Ok(())
        }
    }
}

/// Writes the cells of all parameters, in order.
fn write_all(
    alloc: Global,
    state: &mut State,
    targets: &[Option<Written>],
    args: &[Value],
    numbers: &[i128],
) -> Result<(), Memory>
    ensures { OnOk result (Writes (written_all (targets_of targets.now) (map value_of args.now) numbers.now) (state_of state.old) (state_of state.new)) }
{
    let mut left = Numbers { rest: numbers };
    for i in 0..targets.len().min(args.len()) {
        write_one(alloc, state, &targets[i], &args[i], &mut left)?;
    }
    Ok(())
}

/// The result of the call, which is the first value of the reply, where there is one.
fn result_in(plain: Option<Plain>, reply: &[i128]) -> Option<Value>
    ensures { option_map value_of result ≡ meaning.result_in plain reply.now }
{
    match plain {
        None => None,
        Some(_) => match reply.first() {
            Some(v) => Some(Value::Num(*v)),
            None => None,
        },
    }
}

/// The numbers of the cells, behind the result.
fn cells_in(plain: Option<Plain>, reply: &[i128]) -> &[i128]
    ensures { result.now ≡ meaning.cells_in plain reply.now }
{
    match plain {
        None => reply,
        Some(_) => match reply.split_first() {
            Some((_, rest)) => rest,
            None => reply,
        },
    }
}

/// The cells of the reply are written, and its result is given.
pub fn replied(
    alloc: Global,
    state: &mut State,
    plain: Option<Plain>,
    targets: &[Option<Written>],
    args: &[Value],
    reply: &[i128],
) -> Result<Option<Value>, Memory>
    ensures areas { OnOk result (Writes (written_all (targets_of targets.now) (map value_of args.now) (meaning.cells_in plain reply.now)) (state_of state.old) (state_of state.new)) }
    ensures gives { IfOk result (λ v. option_map value_of v ≡ meaning.result_in plain reply.now) }
{
    write_all(alloc, state, targets, args, cells_in(plain, reply))?;
    Ok(result_in(plain, reply))
}
