//! The first fault of an item. The fault of a node counts before those of its parts.

ghost use Rattle.std.specs.Prelude.{◌≡◌, IfOk, OnOk, option_map};
ghost use Rattle.ivory_tree.specs.Places.{item_span};
ghost use Rattle.area_types.specs.View.{area_of as area_seen};
ghost use Rattle.ivory_tree.specs.View.{init_of, item_of, global_of, proc_of};
ghost use Rattle.rule_checker.specs.Contexts.{context_of, earlier_of};
ghost use Rattle.rule_checker.specs.Faults.{found};
ghost use Rattle.rule_faults.specs.Contexts.{outside, of_body};
ghost use Rattle.rule_faults.specs.FirstFault.{first_of};
ghost use Rattle.rule_faults.specs.ItemRows as nodes;
ghost use Rattle.item_rules.specs.Around.{Around};
ghost use Rattle.item_rules.specs.Boundaries.{boundary_at};
ghost use Rattle.item_rules.specs.Within as within;

use crate::boundaries::Boundary;
use crate::contracts::contracts_fault;
use crate::fields::{bit_fields_fault, fields_fault};
use crate::headers::header_fault;
use crate::rules::item_rule;
use alloc_effects::Allowed;
use area_types::Area;
use iv_words::{Memory, Seq, Span};
use ivory_tree::{AreaItem, InitText, Item, ProcItem};
use rule_checker::{Context, RuleFault, area_in, at_place, either, init_fault};
use statement_rules::{area_fault, block_fault};
use std::alloc::Global;

/// The first fault of an initializer, where there is one.
fn first_value_fault(
    context: &Context,
    area: &Option<Area>,
    init: &Option<InitText>,
) -> Option<RuleFault>
    ensures { found result ≡ first_of (nodes.init_rows (context_of context.now) (option_map area_seen area.now) (option_map init_of init.now)) }
{
    match init {
        Some(init) => init_fault(context, true, area.as_ref(), init),
        None => None,
    }
}

/// The first fault of an area of the module, its type before its initializer.
fn global_fault(
    alloc: Global,
    context: &Context,
    item: &AreaItem,
) -> Result<Option<RuleFault>, Memory>
    ensures { IfOk result (λ fault. found fault ≡ within.global_fault (context_of context.now) (global_of item.now)) }
{
    let of_area = area_fault(alloc, &context.items, &item.area)?;
    let area = area_in(alloc, &context.items, &item.area)?;
    Ok(either(of_area, first_value_fault(context, &area, &item.init)))
}

fn boundary_of(exported: bool) -> Boundary
    ensures { boundary_at result ≡ nodes.boundary_of exported }
{
    if exported {
        Boundary::Exported
    } else {
        Boundary::Inner
    }
}

/// The body of a procedure may allocate and return, and not break.
fn of_body() -> Allowed
    ensures { result ≡ of_body }
{
    Allowed {
        may_alloc: true,
        may_break: false,
        may_return: true,
    }
}

/// The first fault of a procedure: its header, its contracts and its body.
fn proc_fault(
    alloc: Global,
    context: &mut Context,
    item: &ProcItem,
) -> Result<Option<RuleFault>, Memory>
    ensures fault { IfOk result (λ fault. found fault ≡ within.proc_fault (context_of context.old) (proc_of item.now)) }
    ensures around { OnOk result (Around context.old context.new) }
{
    let of_header = header_fault(alloc, context, boundary_of(item.exported), &item.header)?;
    let of_contracts = contracts_fault(context, item.contracts.as_slice());
    let gives = context.gives;
    let of_block = block_fault(alloc, context, gives, of_body(), &item.body)?;
    Ok(either(of_header, either(of_contracts, of_block)))
}

/// The first fault of the parts of an item.
fn fault_within(
    alloc: Global,
    context: &mut Context,
    item: &Item,
) -> Result<Option<RuleFault>, Memory>
    ensures fault { IfOk result (λ fault. found fault ≡ first_of (nodes.within_item (context_of context.old) (item_of item.now))) }
    ensures around { OnOk result (Around context.old context.new) }
{
    match item {
        Item::Bits(item) => Ok(bit_fields_fault(item.fields.as_slice())),
        Item::Struct(item) => fields_fault(alloc, &context.items, item.fields.as_slice()),
        Item::Area(item) => global_fault(alloc, &*context, item),
        Item::Import(header) => header_fault(alloc, context, Boundary::Imported, header),
        Item::Proc(item) => proc_fault(alloc, context, item),
    }
}

fn place_of(item: &Item) -> Span
    ensures { result ≡ item_span (item_of item.now) }
{
    match item {
        Item::Bits(item) => item.span,
        Item::Struct(item) => item.span,
        Item::Area(item) => item.span,
        Item::Import(header) => header.span,
        Item::Proc(item) => item.span,
    }
}

/// The first fault of an item.
#[tactic(auto, using(crate::proofs::NodeRows::item_told))]
pub(crate) fn item_fault(
    alloc: Global,
    context: &mut Context,
    item: &Item,
) -> Result<Option<RuleFault>, Memory>
    ensures fault { IfOk result (λ fault. found fault ≡ first_of (within.item_row (context_of context.old) (item_of item.now))) }
    ensures around { OnOk result (Around context.old context.new) }
{
    let rule = item_rule(alloc, &context.items, item)?;
    let within = fault_within(alloc, context, item)?;
    Ok(at_place(rule, place_of(item), within))
}

/// Forgets what is known within an item.
pub(crate) fn leave_item(alloc: Global, context: &mut Context)
    ensures view { context_of context.new ≡ outside context.old.names (earlier_of context.old.items) }
    ensures around { Around context.old context.new }
{
    context.regions = Seq::new(alloc);
    context.gives = false;
    context.result = None;
    context.in_ensures = false;
    context.allowed = Allowed {
        may_alloc: false,
        may_break: false,
        may_return: false,
    };
    context.scope = Seq::new(alloc);
}
