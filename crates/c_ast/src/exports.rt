//! What a unit lets the outside call.

ghost use Rattle.std.specs.Prelude.{◌≡◌, ◌++◌, IfOk, OnOk};
ghost use Rattle.c_ast.specs.Exports as exports;
ghost use Rattle.c_ast.specs.Names as names;
ghost use Rattle.c_ast.specs.View.{function_of, unit_of};

use crate::types::{CScalar, CType};
use crate::unit::{CFunction, CParam, CUnit};
use iv_words::{Memory, Seq, Word};
use run_records::{Export, Plain};
use std::alloc::Global;

/// The functions without `static` whose parameters and result are integers, `bool` or `void`, in order; a name that begins
/// with `iv_` is given without it.
pub fn c_exports(alloc: Global, u: &CUnit) -> Result<Seq<Export>, Memory>
    ensures { IfOk result (λ es. es ≡ exports.c_exports (unit_of u.now)) }
{
    let mut found = Seq::new(alloc);
    for f in u.functions.iter() {
        add_export(alloc, f, &mut found)?;
    }
    Ok(found)
}

/// Adds a function where the outside may call it.
fn add_export(alloc: Global, f: &CFunction, found: &mut Seq<Export>) -> Result<(), Memory>
    ensures { OnOk result (found.new ≡ found.old ++ exports.exports_by f.now.hidden (function_of f.now)) }
{
    if f.hidden {
        return Ok(());
    }
    let Some(params) = plain_params(alloc, f.params.as_slice())? else {
        return Ok(());
    };
    let Some(result) = plain_result(&f.result) else {
        return Ok(());
    };
    found.push(Export {
        name: outer_name(alloc, &f.name)?,
        params,
        result,
    })
}

fn plain_of(s: CScalar) -> Plain
    ensures { result ≡ exports.plain_of s }
{
    match s {
        CScalar::Truth => Plain::Truth,
        CScalar::Int(kind) => Plain::Int(kind),
    }
}

fn plain_param(ty: &CType) -> Option<Plain>
    ensures { result ≡ exports.plain_param ty.now }
{
    match ty {
        CType::Value(s) => Some(plain_of(*s)),
        CType::Void | CType::Pointer(_, _) => None,
    }
}

/// The types of all parameters, where each is an integer or `bool`.
fn plain_params(alloc: Global, params: &[CParam]) -> Result<Option<Seq<Plain>>, Memory>
    ensures { IfOk result (λ ts. ts ≡ exports.plain_params params.now) }
{
    let mut plains = Seq::with_capacity(alloc, params.len())?;
    for param in params {
        match plain_param(&param.ty) {
            Some(plain) => plains.push(plain)?,
            None => return Ok(None),
        }
    }
    Ok(Some(plains))
}

/// The type of a result, or none for `void`, where it is no pointer.
fn plain_result(ty: &CType) -> Option<Option<Plain>>
    ensures { result ≡ exports.plain_result ty.now }
{
    match ty {
        CType::Void => Some(None),
        CType::Value(s) => Some(Some(plain_of(*s))),
        CType::Pointer(_, _) => None,
    }
}

/// The name without `iv_` where it begins with that.
fn outer_name(alloc: Global, name: &Word) -> Result<Word, Memory>
    ensures { IfOk result (λ w. w ≡ names.outer_name name.now) }
{
    let bytes = name.as_slice();
    if bytes.starts_with(b"iv_") {
        Word::from_slice(alloc, &bytes[3..])
    } else {
        Word::from_slice(alloc, bytes)
    }
}
