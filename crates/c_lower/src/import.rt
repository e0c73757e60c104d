ghost use Rattle.std.specs.Prelude.{◌≡◌, IfOk, map, replicate};
ghost use Rattle.iv_words.specs.declared.IntKind.TheVariants as kind;
ghost use Rattle.c_ast.specs.declared.CScalar.TheVariants as scalar;
ghost use Rattle.c_ast.specs.declared.CType.TheVariants as ctype;
ghost use Rattle.c_lower.specs.Shape as shape;

use crate::name::prefixed_name;
use c_ast::{CExtern, CScalar, CType};
use first_form::FirstImport;
use iv_words::{IntKind, Memory, Seq};
use std::alloc::Global;

/// A parameter of `uint8_t` for each parameter of the import.
fn parameters(alloc: Global, count: u32) -> Result<Seq<CType>, Memory>
    ensures { IfOk result (λ ts. ts ≡ replicate count (ctype.Value (scalar.Int kind.U8))) }
{
    let mut params = Seq::with_capacity(alloc, count as usize)?;
    for _done in 0..count {
        params.push(CType::Value(CScalar::Int(IntKind::U8)))?;
    }
    Ok(params)
}

/// The `extern` of an import.
fn extern_for(alloc: Global, import: &FirstImport) -> Result<CExtern, Memory>
    ensures { IfOk result (λ x. x ≡ shape.extern_for import.now) }
{
    Ok(CExtern {
        name: prefixed_name(alloc, import.name.as_slice())?,
        params: parameters(alloc, import.params)?,
        result: CType::Void,
    })
}

/// The externs of all imports, in order.
pub fn externs_for(alloc: Global, imports: &[FirstImport]) -> Result<Seq<CExtern>, Memory>
    ensures { IfOk result (λ xs. xs ≡ map shape.extern_for imports.now) }
{
    let mut externs = Seq::with_capacity(alloc, imports.len())?;
    for import in imports {
        externs.push(extern_for(alloc, import)?)?;
    }
    Ok(externs)
}
