ghost use Rattle.std.specs.Prelude.{◌≡◌, IfOk, map, slice_get};
ghost use Rattle.c_ast.specs.Names.{prefixed};
ghost use Rattle.c_ast.specs.View.{expr_of, stmt_of, function_of};
ghost use Rattle.c_lower.specs.Lowered as lowered;

use crate::name::prefixed_name;
use c_ast::{CCall, CExpr, CFunction, CStmt, CType, Suffix};
use first_form::{FirstCall, FirstImport, FirstProc};
use iv_words::{Memory, Seq, Word};
use std::alloc::Global;

/// The values of a call as constants.
fn constants(alloc: Global, values: &[u8]) -> Result<Seq<CExpr>, Memory>
    ensures { IfOk result (λ es. map expr_of es ≡ map lowered.constant_for values.now) }
{
    let mut args = Seq::with_capacity(alloc, values.len())?;
    for value in values {
        args.push(CExpr::Number(u64::from(*value), Suffix::Plain))?;
    }
    Ok(args)
}

/// The C name of the import with this number.
fn callee(alloc: Global, imports: &[FirstImport], number: u32) -> Result<Word, Memory>
    ensures { IfOk result (λ w. w ≡ prefixed (lowered.name_of (slice_get imports.now number))) }
{
    match imports.get(number as usize) {
        Some(import) => prefixed_name(alloc, import.name.as_slice()),
        None => prefixed_name(alloc, b""),
    }
}

/// The statement of a call.
fn call_for(alloc: Global, imports: &[FirstImport], call: &FirstCall) -> Result<CStmt, Memory>
    ensures { IfOk result (λ s. stmt_of s ≡ lowered.call_for imports.now call.now) }
{
    Ok(CStmt::Call(CCall {
        name: callee(alloc, imports, call.import)?,
        args: constants(alloc, call.values.as_slice())?,
    }))
}

/// The statements of all calls of a body, in order.
fn body_for(
    alloc: Global,
    imports: &[FirstImport],
    calls: &[FirstCall],
) -> Result<Seq<CStmt>, Memory>
    ensures { IfOk result (λ ss. map stmt_of ss ≡ map (lowered.call_for imports.now) calls.now) }
{
    let mut body = Seq::with_capacity(alloc, calls.len())?;
    for call in calls {
        body.push(call_for(alloc, imports, call)?)?;
    }
    Ok(body)
}

/// The function of a procedure.
fn function_for(
    alloc: Global,
    imports: &[FirstImport],
    proc: &FirstProc,
) -> Result<CFunction, Memory>
    ensures { IfOk result (λ f. function_of f ≡ lowered.function_for imports.now proc.now) }
{
    Ok(CFunction {
        hidden: false,
        name: prefixed_name(alloc, proc.name.as_slice())?,
        params: Seq::new(alloc),
        result: CType::Void,
        body: body_for(alloc, imports, proc.calls.as_slice())?,
    })
}

/// The functions of all procedures, in order.
pub fn functions_for(
    alloc: Global,
    imports: &[FirstImport],
    procs: &[FirstProc],
) -> Result<Seq<CFunction>, Memory>
    ensures { IfOk result (λ fs. map function_of fs ≡ map (lowered.function_for imports.now) procs.now) }
{
    let mut functions = Seq::with_capacity(alloc, procs.len())?;
    for proc in procs {
        functions.push(function_for(alloc, imports, proc)?)?;
    }
    Ok(functions)
}
