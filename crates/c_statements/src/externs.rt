//! Calls of externs, and of the function that ends the run at a check.

ghost use Rattle.std.specs.Prelude.{◌≡◌, ◌∷◌, [], ◌++◌, List, map, Ok, Err};
ghost use Rattle.c_ast.specs.Exports.{plain_of};
ghost use Rattle.c_ast.specs.Names as names;
ghost use Rattle.c_ast.specs.declared.CScalar.TheVariants.{Int};
ghost use Rattle.c_ast.specs.declared.CType.TheVariants as ctype;
ghost use Rattle.iv_words.specs.declared.IntKind.TheVariants.{U32};
ghost use Rattle.c_meaning.specs.Calls as meaning;
ghost use Rattle.c_meaning.specs.Values.{CValue, on_ok, as_arguments};
ghost use Rattle.c_operators.specs.Values.{itself, value_of, Gives};
ghost use Rattle.c_expressions.specs.Places.{Excused};
ghost use Rattle.c_expressions.specs.Programs.{program_of};
ghost use Rattle.c_statements.specs.Cells.{all_behind};
ghost use Rattle.c_statements.specs.Parts.{called_of, Does, FailsAt};
ghost use Rattle.c_statements.specs.Replies.{answer, reply_rest, reply_called, only_number};

use crate::arguments::{Params, as_arguments};
use crate::assignment::as_number;
use crate::cells::{Cell, add_plains, cells_behind, plain_of, write_cells};
use crate::parts::{Called, Run};
use crate::pieces::pieces_of;
use crate::trouble::{given, room};
use c_ast::{CExtern, CKind, CScalar, CType, Target};
use c_expressions::Program;
use c_operators::{Trouble, Value};
use iv_words::{IntKind, Seq, Word};
use run_records::{Piece, Plain};
use run_world::{Halt, Stopped};
use std::alloc::Global;

/// The name without `iv_` where it begins with that.
pub fn outer_name(name: &Word) -> &[u8]
    ensures { result.now ≡ names.outer_name name.now }
{
    let bytes = name.as_slice();
    if bytes.starts_with(b"iv_") {
        &bytes[3..]
    } else {
        bytes
    }
}

/// The types of the values that the result takes from a reply.
fn reply_shape(alloc: Global, ty: &CType) -> Result<Seq<Plain>, Trouble>
    ensures { Gives Excused itself (meaning.reply_shape ty.now) result }
{
    let mut shape = Seq::new(alloc);
    match ty {
        CType::Void => {}
        CType::Value(s) => room(shape.push(plain_of(*s)))?,
        CType::Pointer(_, _) => return Err(Trouble::Stuck),
    }
    Ok(shape)
}

/// The value of the call, from the values of the reply.
fn reply_called<'a>(ty: &CType, values: &[i128]) -> Result<Called<'a>, Trouble>
    ensures { Gives Excused called_of (reply_called ty.now values.now) result }
{
    match ty {
        CType::Void => Ok(Called::Nothing),
        CType::Value(s) => match values.first() {
            Some(v) => Ok(Called::Gave(Value::Num(CKind::Scalar(*s), *v))),
            None => Err(Trouble::Stuck),
        },
        CType::Pointer(_, _) => Err(Trouble::Stuck),
    }
}

/// The values that are left to be written.
fn reply_rest<'b>(ty: &CType, values: &'b [i128]) -> &'b [i128]
    ensures { result.now ≡ reply_rest ty.now values.now }
{
    match ty {
        CType::Void | CType::Pointer(_, _) => values,
        CType::Value(_) => match values.split_first() {
            Some((_, rest)) => rest,
            None => values,
        },
    }
}

/// What is done with a reply: the value of the call, and the values written behind its arguments.
fn replied<'a>(
    program: &'a Program,
    run: &mut Run<'a>,
    x: &'a CExtern,
    cells: &[Cell],
    reply: &[i128],
) -> Result<Called<'a>, Stopped>
    ensures { (args : List CValue) → cells.now ≡ all_behind program.now.target program.now.unit.structs args → Does program.now called_of (answer (program_of program.now) x.now args reply.now) run.old run.new result }
{
    let called = given(reply_called(&x.result, reply))?;
    let rest = reply_rest(&x.result, reply);
    given(write_cells(program.target(), &mut run.state, cells, rest))?;
    Ok(called)
}

/// The types of the values of the reply.
fn shape_of<'a>(alloc: Global, x: &'a CExtern, cells: &[Cell]) -> Result<Seq<Plain>, Trouble>
    ensures { Gives Excused itself (on_ok (meaning.reply_shape x.now.result) (λ shape. Ok (shape ++ map (λ c. plain_of c.scalar) cells.now))) result }
{
    let mut shape = reply_shape(alloc, &x.result)?;
    room(add_plains(cells, &mut shape))?;
    Ok(shape)
}

/// The outside sees the call, and replies.
fn outside_with<'a>(
    alloc: Global,
    program: &'a Program,
    run: &mut Run<'a>,
    x: &'a CExtern,
    args: &[Value<'a>],
    pieces: Seq<Piece>,
) -> Result<Called<'a>, Stopped>
    ensures { Does program.now called_of (meaning.outside_with (program_of program.now) x.now (map value_of args.now) pieces) run.old run.new result }
{
    let cells = cells_behind(alloc, program, args)?;
    let shape = given(shape_of(alloc, x, cells.as_slice()))?;
    let name = Word::from_slice(alloc, outer_name(&x.name))?;
    let reply = run
        .world
        .import_call(alloc, name, pieces, shape.as_slice())?;
    replied(program, run, x, cells.as_slice(), reply.as_slice())
}

fn outside<'a>(
    alloc: Global,
    program: &'a Program,
    run: &mut Run<'a>,
    x: &'a CExtern,
    args: &[Value<'a>],
) -> Result<Called<'a>, Stopped>
    ensures { Does program.now called_of (meaning.outside (program_of program.now) x.now (map value_of args.now)) run.old run.new result }
{
    let pieces = given(pieces_of(alloc, program, &run.state.objects, args))?;
    outside_with(alloc, program, run, x, args, pieces)
}

/// The call of an extern, with the values of its arguments in the types of its parameters.
pub fn extern_call<'a>(
    alloc: Global,
    program: &'a Program,
    run: &mut Run<'a>,
    x: &'a CExtern,
    values: &[Value<'a>],
) -> Result<Called<'a>, Stopped>
    ensures { Does program.now called_of (meaning.extern_call (program_of program.now) x.now (map value_of values.now)) run.old run.new result }
{
    let params = Params::Extern(x.params.as_slice());
    let args = given(as_arguments(alloc, program.target(), params, values))?;
    outside(alloc, program, run, x, args.as_slice())
}

// ---- the function that ends the run at a check

/// The number of the check: the one argument, as a 32-bit number.
fn site_of<'a>(t: Target, values: &[Value<'a>]) -> Result<i128, Trouble>
    ensures { Gives Excused itself (on_ok (as_arguments t (ctype.Value (Int U32) ∷ []) (map value_of values.now)) only_number) result }
{
    let Some((first, rest)) = values.split_first() else {
        return Err(Trouble::Stuck);
    };
    let site = as_number(t, CScalar::Int(IntKind::U32), *first)?;
    if rest.is_empty() {
        Ok(site)
    } else {
        Err(Trouble::Stuck)
    }
}

/// The run ends at the check of this number.
fn failed(site: i128) -> Stopped
    ensures { FailsAt site result }
{
    match u32::try_from(site.unsigned_abs()) {
        Ok(site) => Stopped::Halted(Halt::FailedCheck(site)),
        Err(_) => Stopped::Memory,
    }
}

/// How a call of the function that ends the run ends it.
pub fn stop_call<'a>(program: &'a Program, _run: &Run<'a>, values: &[Value<'a>]) -> Stopped
    ensures { Does program.now called_of (meaning.stop_call (program_of program.now) (map value_of values.now)) _run.now _run.now (Err result) }
{
    match given(site_of(program.target(), values)) {
        Ok(site) => failed(site),
        Err(why) => why,
    }
}
