//! What the outside may call.

ghost use Rattle.std.specs.Prelude.{◌≡◌, ◌++◌, map, IfOk, OnOk};
ghost use Rattle.std.specs.Option.{option_map};
ghost use Rattle.area_types.specs.View.{type_of};
ghost use Rattle.core_tree.specs.View.{param_of, proc_of};
ghost use Rattle.core_tree.specs.Cores.{core_of};
ghost use Rattle.core_tree.specs.Exports as exports;

use crate::items::{CoreParam, CoreProc};
use crate::resolved::Core;
use area_types::ValueType;
use iv_words::{Memory, Seq};
use run_records::{Export, Plain};
use std::alloc::Global;

/// The exported procedures in order.
pub fn exports_of(alloc: Global, c: &Core) -> Result<Seq<Export>, Memory>
    ensures { IfOk result (λ es. es ≡ exports.exports_of (core_of c.now)) }
{
    exports_among(alloc, c.procs.as_slice())
}

fn exports_among(alloc: Global, procs: &[CoreProc]) -> Result<Seq<Export>, Memory>
    ensures { IfOk result (λ es. es ≡ exports.exports_among (map proc_of procs.now)) }
{
    let mut found = Seq::new(alloc);
    for p in procs {
        add_export(alloc, p, &mut found)?;
    }
    Ok(found)
}

/// Adds a procedure where the outside may call it.
fn add_export(alloc: Global, p: &CoreProc, found: &mut Seq<Export>) -> Result<(), Memory>
    ensures { OnOk result (found.new ≡ found.old ++ exports.exports_by p.now.exported (proc_of p.now)) }
{
    if !p.exported {
        return Ok(());
    }
    let Some(params) = plain_params(alloc, p.params.as_slice())? else {
        return Ok(());
    };
    let Some(result) = plain_result(&p.result) else {
        return Ok(());
    };
    found.push(Export {
        name: p.name.copy(alloc)?,
        params,
        result,
    })
}

/// The plain type that a type is outside, where it is `bool` or an integer.
fn plain_of(ty: &ValueType) -> Option<Plain>
    ensures { result ≡ exports.plain_of (type_of ty.now) }
{
    match ty {
        ValueType::Bool => Some(Plain::Truth),
        ValueType::Int(kind) => Some(Plain::Int(*kind)),
        ValueType::Ix(_) | ValueType::Bits(_) | ValueType::Ref(_) => None,
    }
}

/// The types of all parameters, where each is `bool` or an integer.
fn plain_params(alloc: Global, params: &[CoreParam]) -> Result<Option<Seq<Plain>>, Memory>
    ensures { IfOk result (λ ts. ts ≡ exports.plain_params (map param_of params.now)) }
{
    let mut plains = Seq::with_capacity(alloc, params.len())?;
    for param in params {
        match plain_of(&param.ty) {
            Some(plain) => plains.push(plain)?,
            None => return Ok(None),
        }
    }
    Ok(Some(plains))
}

/// The type of a result, or none where there is no result, where it is `bool` or an integer.
fn plain_result(ty: &Option<ValueType>) -> Option<Option<Plain>>
    ensures { result ≡ exports.plain_result (option_map type_of ty.now) }
{
    match ty {
        None => Some(None),
        Some(ty) => match plain_of(ty) {
            Some(plain) => Some(Some(plain)),
            None => None,
        },
    }
}
