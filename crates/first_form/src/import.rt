//! What imports stand for: their types and the names of their parameters are tested.

ghost use Rattle.std.specs.Prelude.{◌≡◌, ◌<◌, ◌^◌, List, length, map, All, IfOk, OnOk};
ghost use Rattle.std.specs.List.{AllZip, list_all};
ghost use Rattle.ivory_tree.specs.Nodes.{item_node, node_count};
ghost use Rattle.ivory_tree.specs.View.{type_of, param_of, header_of, item_of};
ghost use Rattle.first_form.specs.Answers.{IfRefused};
ghost use Rattle.first_form.specs.Stands as stands;
ghost use Rattle.first_form.specs.Stands.{ParamsStand, HeaderStands, ImportStands};
ghost use Rattle.first_form.specs.declared.first.FirstImport.{FirstImport};

use crate::first::FirstImport;
use crate::names::{Names, table_of};
use crate::stop::Stop;
use iv_words::{IntKind, Memory, Seq, Word};
use ivory_tree::{Header, Item, Param, TypeKind, TypeText};
use std::alloc::Global;

fn is_uint8(ty: &TypeText) -> bool
    ensures { result ≡ stands.is_uint8 (type_of ty.now) }
{
    match ty.kind {
        TypeKind::Int(kind) => kind == IntKind::U8,
        _ => false,
    }
}

fn are_uint8(params: &[Param]) -> bool
    ensures { result ≡ list_all (λ p. stands.is_uint8 (type_of p.ty)) params.now }
{
    params.iter().all(|param| is_uint8(&param.ty))
}

fn param_names(alloc: Global, params: &[Param]) -> Result<Seq<Word>, Memory>
    ensures { IfOk result (λ names. names ≡ map (λ p. p.name.text) (map param_of params.now)) }
{
    let mut names = Seq::with_capacity(alloc, params.len())?;
    for param in params {
        names.push(param.name.text.copy(alloc)?)?;
    }
    Ok(names)
}

/// Refuses parameters of which one has the name of another, or of an item.
fn check_params(alloc: Global, items: &Names, params: &[Param]) -> Result<(), Stop>
    ensures ok { OnOk result (ParamsStand items.now (map (λ p. p.name.text) (map param_of params.now))) }
    ensures refused { IfRefused result (¬ ParamsStand items.now (map (λ p. p.name.text) (map param_of params.now))) }
{
    let names = param_names(alloc, params)?;
    table_of(alloc, &names)?;
    if items.contains_any(&names) {
        return Err(Stop::Refused);
    }
    Ok(())
}

fn first_header(alloc: Global, items: &Names, header: &Header) -> Result<FirstImport, Stop>
    requires few { length header.now.params < 2 ^ 32 }
    ensures ok { IfOk result (λ i. HeaderStands items.now (header_of header.now) i) }
    ensures refused { IfRefused result ((i : FirstImport) → HeaderStands items.now (header_of header.now) i → ⊥) }
{
    if header.result.is_some() {
        return Err(Stop::Refused);
    }
    if !are_uint8(&header.params) {
        return Err(Stop::Refused);
    }
    check_params(alloc, items, &header.params)?;
    let name = header.name.text.copy(alloc)?;
    Ok(FirstImport {
        name,
        params: header.params.len() as u32,
    })
}

fn first_import(alloc: Global, items: &Names, item: &Item) -> Result<FirstImport, Stop>
    requires few { node_count (item_node (item_of item.now)) < 2 ^ 32 }
    ensures ok { IfOk result (λ i. ImportStands items.now (item_of item.now) i) }
    ensures refused { IfRefused result ((i : FirstImport) → ImportStands items.now (item_of item.now) i → ⊥) }
{
    match item {
        Item::Import(header) => first_header(alloc, items, header),
        _ => Err(Stop::Refused),
    }
}

/// What these items stand for as imports.
pub fn first_imports(
    alloc: Global,
    items: &Names,
    imports: &[Item],
) -> Result<Seq<FirstImport>, Stop>
    requires few { All (λ item. node_count (item_node (item_of item)) < 2 ^ 32) imports.now }
    ensures ok { IfOk result (λ is. AllZip (ImportStands items.now) (map item_of imports.now) is) }
    ensures refused { IfRefused result ((is : List FirstImport) → AllZip (ImportStands items.now) (map item_of imports.now) is → ⊥) }
{
    let mut firsts = Seq::with_capacity(alloc, imports.len())?;
    for import in imports {
        firsts.push(first_import(alloc, items, import)?)?;
    }
    Ok(firsts)
}
