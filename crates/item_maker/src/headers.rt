//! Headers: the types of parameters and of results, and the cores of imports.

ghost use Rattle.std.specs.Prelude.{◌≡◌, ◌≤◌, IfOk, OnOk, length, map, option_map};
ghost use Rattle.area_types.specs.View as seen;
ghost use Rattle.core_tree.specs.View as tree;
ghost use Rattle.ivory_tree.specs.View as text;
ghost use Rattle.rule_checker.specs.Contexts.{earlier_of};
ghost use Rattle.source_types.specs.Written as written;
ghost use Rattle.typing_rules.specs.ExpressionCores.{type_or};
ghost use Rattle.typing_rules.specs.ItemCores as cores;
ghost use Rattle.typing_rules.specs.Items as items;
ghost use Rattle.typing_rules.specs.WellTyped as typed;
ghost use Rattle.core_maker.specs.Places.{env_of, Agrees};
ghost use Rattle.item_maker.specs.Places.{SameItems, HasFewRegions};

use crate::places::begin;
use area_types::ValueType;
use core_maker::Place;
use core_tree::{CoreImport, CoreParam};
use item_rules::regions_of;
use iv_words::{Memory, Seq, Word};
use ivory_tree::{Header, Param, TypeText};
use rule_checker::{Items, type_in};
use run_records::Plain;
use std::alloc::Global;

/// Goes to a header, with its region parameters.
pub(crate) fn enter_header(alloc: Global, place: &mut Place, header: &Header) -> Result<(), Memory>
    ensures env { OnOk result (env_of place.new ≡ typed.at_header place.old.context.names (earlier_of place.old.context.items) (text.header_of header.now)) }
    ensures agrees { OnOk result (Agrees place.new) }
    ensures few { OnOk result (HasFewRegions place.new) }
    ensures same { OnOk result (SameItems place.old place.new) }
{
    let regions = regions_of(alloc, header.params.as_slice())?;
    begin(alloc, place, regions);
    Ok(())
}

/// The type that a text names; a bool where it names none.
fn named_type(
    alloc: Global,
    items: &Items,
    regions: &[Word],
    t: &TypeText,
) -> Result<ValueType, Memory>
    requires { length regions.now ≤ 4_294_967_296 }
    ensures { IfOk result (λ v. seen.type_of v ≡ type_or (written.type_in (earlier_of items.now) regions.now (text.type_of t.now))) }
{
    match type_in(alloc, items, regions, t)? {
        Some(found) => Ok(found),
        None => Ok(ValueType::Bool),
    }
}

/// The same at a place.
fn type_there(alloc: Global, place: &Place, t: &TypeText) -> Result<ValueType, Memory>
    requires { HasFewRegions place.now }
    ensures { IfOk result (λ v. seen.type_of v ≡ type_or (written.type_in (env_of place.now).earlier (env_of place.now).regions (text.type_of t.now))) }
{
    named_type(
        alloc,
        &place.context.items,
        place.context.regions.as_slice(),
        t,
    )
}

/// The type of a result, where there is one.
pub(crate) fn result_type(
    alloc: Global,
    place: &Place,
    given: &Option<TypeText>,
) -> Result<Option<ValueType>, Memory>
    requires { HasFewRegions place.now }
    ensures { IfOk result (λ t. option_map seen.type_of t ≡ cores.result_core (env_of place.now) (option_map text.type_of given.now)) }
{
    match given {
        Some(given) => Ok(Some(type_there(alloc, place, given)?)),
        None => Ok(None),
    }
}

/// The types of the parameters of an import.
fn param_types(alloc: Global, place: &Place, params: &[Param]) -> Result<Seq<ValueType>, Memory>
    requires { HasFewRegions place.now }
    ensures { IfOk result (λ ts. map seen.type_of ts ≡ cores.param_types (env_of place.now) (map text.param_of params.now)) }
{
    let mut types = Seq::with_capacity(alloc, params.len())?;
    for param in params {
        types.push(type_there(alloc, place, &param.ty)?)?;
    }
    Ok(types)
}

fn core_param(alloc: Global, place: &Place, param: &Param) -> Result<CoreParam, Memory>
    requires { HasFewRegions place.now }
    ensures name { IfOk result (λ p. p.name ≡ param.now.name.text) }
    ensures ty { IfOk result (λ p. seen.type_of p.ty ≡ type_or (written.type_in (env_of place.now).earlier (env_of place.now).regions (text.type_of param.now.ty))) }
{
    let name = param.name.text.copy(alloc)?;
    Ok(CoreParam {
        name,
        ty: type_there(alloc, place, &param.ty)?,
    })
}

/// The parameters of a procedure, with their types.
pub(crate) fn core_params(
    alloc: Global,
    place: &Place,
    params: &[Param],
) -> Result<Seq<CoreParam>, Memory>
    requires { HasFewRegions place.now }
    ensures { IfOk result (λ ps. map tree.param_of ps ≡ items.param_cores (map text.param_of params.now) (cores.param_types (env_of place.now) (map text.param_of params.now))) }
{
    let mut made = Seq::with_capacity(alloc, params.len())?;
    for param in params {
        made.push(core_param(alloc, place, param)?)?;
    }
    Ok(made)
}

fn plain_of(t: &ValueType) -> Option<Plain>
    ensures { result ≡ items.plain_of (seen.type_of t.now) }
{
    match t {
        ValueType::Bool => Some(Plain::Truth),
        ValueType::Int(kind) => Some(Plain::Int(*kind)),
        ValueType::Ix(_) | ValueType::Bits(_) => None,
        ValueType::Ref(_) => None,
    }
}

/// The type outside of what an import gives.
fn plain_result(given: &Option<ValueType>) -> Option<Plain>
    ensures { result ≡ items.plain_result (option_map seen.type_of given.now) }
{
    match given {
        Some(t) => plain_of(t),
        None => None,
    }
}

/// The core of an import, at its header.
pub(crate) fn import(alloc: Global, place: &Place, header: &Header) -> Result<CoreImport, Memory>
    requires { HasFewRegions place.now }
    ensures { IfOk result (λ i. tree.import_of i ≡ cores.import_core (env_of place.now) (text.header_of header.now)) }
{
    let params = param_types(alloc, place, header.params.as_slice())?;
    let given = result_type(alloc, place, &header.result)?;
    Ok(CoreImport {
        name: header.name.text.copy(alloc)?,
        params,
        result: plain_result(&given),
    })
}
