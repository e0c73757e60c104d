//! The cores of procedures: the header, the contracts, and the body.

ghost use Rattle.std.specs.Prelude.{◌≡◌, IfOk, OnOk, map, option_map};
ghost use Rattle.area_types.specs.View as seen;
ghost use Rattle.core_tree.specs.View as tree;
ghost use Rattle.ivory_tree.specs.View as text;
ghost use Rattle.check_numbers.specs.NumberedParts as numbers;
ghost use Rattle.typing_rules.specs.ItemCores as cores;
ghost use Rattle.typing_rules.specs.Items as items;
ghost use Rattle.typing_rules.specs.StatementCores.{block_core, block_last};
ghost use Rattle.core_maker.specs.Places.{env_of, Agrees};
ghost use Rattle.item_maker.specs.Places.{SameItems, HasFewRegions};
ghost use Rattle.item_maker.specs.Procedures as head;

use crate::contracts::contracts;
use crate::headers::{core_params, enter_header, result_type};
use crate::places::give;
use alloc_effects::Allowed;
use area_types::ValueType;
use core_maker::Place;
use core_tree::{CoreParam, CoreProc, CoreStmt};
use iv_words::{Copied, Memory, Seq};
use ivory_tree::{Block, Header, ProcItem};
use statement_maker::{add_name, block};
use std::alloc::Global;

/// What a header gives the core of its procedure.
#[derive(Drop)]
struct Head {
    params: Seq<CoreParam>,
    result: Option<ValueType>,
}

/// Puts parameters into scope one after another.
fn add_params(alloc: Global, place: &mut Place, params: &[CoreParam]) -> Result<(), Memory>
    requires { Agrees place.old }
    ensures env { OnOk result (env_of place.new ≡ head.with_cores (env_of place.old) (map tree.param_of params.now)) }
    ensures agrees { OnOk result (Agrees place.new) }
    ensures same { OnOk result (SameItems place.old place.new) }
{
    for param in params {
        let ty = param.ty.copy(alloc)?;
        add_name(alloc, place, &param.name, ty)?;
    }
    Ok(())
}

/// The parameters and the result at a header.
fn head_there(alloc: Global, place: &Place, header: &Header) -> Result<Head, Memory>
    requires { HasFewRegions place.now }
    ensures params { IfOk result (λ h. map tree.param_of h.params ≡ items.param_cores (text.header_of header.now).params (cores.param_types (env_of place.now) (text.header_of header.now).params)) }
    ensures given { IfOk result (λ h. option_map seen.type_of h.result ≡ cores.result_core (env_of place.now) (text.header_of header.now).result) }
{
    let params = core_params(alloc, place, header.params.as_slice())?;
    let given = result_type(alloc, place, &header.result)?;
    Ok(Head {
        params,
        result: given,
    })
}

/// Goes behind the header of a procedure, where its parameters are in scope.
#[tactic(auto, using(crate::proofs::Entered::params_in_scope))]
fn enter(alloc: Global, place: &mut Place, header: &Header) -> Result<Head, Memory>
    ensures params { IfOk result (λ h. map tree.param_of h.params ≡ head.params_at place.old (text.header_of header.now)) }
    ensures given { IfOk result (λ h. option_map seen.type_of h.result ≡ head.result_at place.old (text.header_of header.now)) }
    ensures env { OnOk result (env_of place.new ≡ head.behind place.old (text.header_of header.now)) }
    ensures agrees { OnOk result (Agrees place.new) }
    ensures same { OnOk result (SameItems place.old place.new) }
{
    enter_header(alloc, place, header)?;
    let head = head_there(alloc, &*place, header)?;
    let given = Copied::copied(&head.result, alloc)?;
    give(place, given);
    add_params(alloc, place, head.params.as_slice())?;
    Ok(head)
}

/// The core of a body, which may allocate and return, and not break.
#[tactic(auto, using(crate::proofs::Entered::agrees_in_body))]
fn body(
    alloc: Global,
    place: &mut Place,
    braces: &Block,
    next: &mut u32,
) -> Result<Seq<CoreStmt>, Memory>
    requires { Agrees place.old }
    ensures core { IfOk result (λ cs. tree.stmts_of cs ≡ numbers.stmts_from next.old (block_core (items.in_body (env_of place.old)) (text.block_of braces.now))) }
    ensures after { OnOk result (next.new ≡ numbers.stmts_after next.old (block_core (items.in_body (env_of place.old)) (text.block_of braces.now))) }
    ensures locals { OnOk result (map seen.type_of place.new.locals ≡ (block_last (items.in_body (env_of place.old)) (text.block_of braces.now)).locals) }
    ensures same { OnOk result (SameItems place.old place.new) }
{
    place.context.allowed = Allowed {
        may_alloc: true,
        may_break: false,
        may_return: true,
    };
    block(alloc, place, braces, next)
}

/// The core of a procedure, with its checks numbered from `next` on.
pub(crate) fn procedure(
    alloc: Global,
    place: &mut Place,
    item: &ProcItem,
    next: &mut u32,
) -> Result<CoreProc, Memory>
    ensures core { IfOk result (λ p. tree.proc_of p ≡ numbers.proc_from next.old (head.proc_at place.old (text.proc_of item.now))) }
    ensures after { OnOk result (next.new ≡ numbers.proc_after next.old (head.proc_at place.old (text.proc_of item.now))) }
    ensures same { OnOk result (SameItems place.old place.new) }
{
    let head = enter(alloc, place, &item.header)?;
    let contracts = contracts(alloc, place, item.contracts.as_slice(), next)?;
    let body = body(alloc, place, &item.body, next)?;
    let name = item.header.name.text.copy(alloc)?;
    let locals = place.locals.copy(alloc)?;
    Ok(CoreProc {
        name,
        exported: item.exported,
        params: head.params,
        result: head.result,
        contracts,
        locals,
        body,
    })
}
