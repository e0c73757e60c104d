//! The first fault of an initializer.

ghost use Rattle.std.specs.Prelude.{◌≡◌};
ghost use Rattle.area_types.specs.View.{area_of};
ghost use Rattle.ivory_tree.specs.Syntax.{One, Many};
ghost use Rattle.ivory_tree.specs.View.{expr_of, init_of, inits_of};
ghost use Rattle.rule_faults.specs.ExpressionRows as nodes;
ghost use Rattle.rule_faults.specs.FirstFault.{first_of};
ghost use Rattle.rule_faults.specs.ItemRules as rules;
ghost use Rattle.rule_checker.specs.Contexts.{context_of, earlier_of};
ghost use Rattle.rule_checker.specs.Faults.{found};
ghost use Rattle.rule_checker.specs.Rows.{least};
ghost use Rattle.rule_checker.specs.Starts as starts;
ghost use Rattle.rule_checker.specs.View.{area_seen};
ghost use Rattle.rule_checker.specs.Wanted.{want_at};

use crate::expressions::expression_fault;
use crate::fault::{RuleFault, at_place};
use crate::items::Items;
use crate::lookups::struct_at;
use crate::rules::when;
use crate::scope::Context;
use crate::types::TypeRef;
use crate::wants::Want;
use area_types::Area;
use iv_words::{Seq, Span};
use ivory_tree::{Expr, ExprKind, InitText};

/// What is wanted of the expression for an area: the cell's type.
fn of_cell<'a>(area: Option<&'a Area>) -> Want<'a>
    ensures { want_at result ≡ nodes.of_cell (area_seen area.entry) }
{
    match area {
        Some(area) => match area {
            Area::Stored(held) => Want::Wants(TypeRef::of(held)),
            Area::Array(_, _) | Area::Struct(_) => Want::Unknown,
        },
        None => Want::Unknown,
    }
}

/// The area of the field of that number.
fn field_at<'a>(items: &'a Items, number: u32, at: usize) -> Option<&'a Area>
    ensures { area_seen result ≡ starts.field_at (earlier_of items.now) number at }
{
    match struct_at(items, number) {
        Some(found) => match found.fields.get(at) {
            Some(field) => Some(&field.area),
            None => None,
        },
        None => None,
    }
}

/// The area of the element or field of that number.
fn place_in<'a>(items: &'a Items, area: Option<&'a Area>, at: usize) -> Option<&'a Area>
    ensures { area_seen result ≡ nodes.place_in (earlier_of items.now) (area_seen area.entry) at }
{
    match area {
        Some(area) => match area {
            Area::Stored(_) => None,
            Area::Array(_, element) => Some(element),
            Area::Struct(number) => field_at(items, *number, at),
        },
        None => None,
    }
}

/// Whether the expression is a number without a minus.
#[tactic(auto, using(crate::proofs::Started::number_chain, crate::proofs::Started::number_postfix))]
fn is_number(e: &Expr) -> bool
    ensures { result ≡ rules.is_number (expr_of e.now) }
{
    match &e.kind {
        ExprKind::Lit(value) => 0 <= *value,
        ExprKind::Truth(_) | ExprKind::Outcome | ExprKind::Var(_) => false,
        ExprKind::Cast(_, _) | ExprKind::ToIx(_, _) | ExprKind::WrapIx(_, _) => false,
        ExprKind::MakeBits(_, _) | ExprKind::Raw(_) | ExprKind::Set(_, _, _) => false,
        ExprKind::Prefix(_, _) | ExprKind::Cond(_, _, _) => false,
        ExprKind::Chain(_, _) => false,
        ExprKind::Postfix(_, _) => false,
    }
}

/// Whether it is a number with or without its minus, a bool, or bit data with a number for its word.
#[tactic(auto, using(crate::proofs::Started::value_chain, crate::proofs::Started::value_postfix))]
fn is_first_value(e: &Expr) -> bool
    ensures { result ≡ rules.is_first_value (expr_of e.now) }
{
    match &e.kind {
        ExprKind::Lit(_) | ExprKind::Truth(_) => true,
        ExprKind::MakeBits(_, operand) => is_number(operand),
        ExprKind::Outcome | ExprKind::Var(_) => false,
        ExprKind::Cast(_, _) | ExprKind::ToIx(_, _) | ExprKind::WrapIx(_, _) => false,
        ExprKind::Raw(_) | ExprKind::Set(_, _, _) => false,
        ExprKind::Prefix(_, _) | ExprKind::Cond(_, _, _) => false,
        ExprKind::Chain(_, _) => false,
        ExprKind::Postfix(_, _) => false,
    }
}

/// The rule of an expression for an area, which is one of the module where `global`.
fn one_rule(global: bool, area: Option<&Area>, e: &Expr) -> Option<u8>
    ensures { result ≡ least (starts.one_rows global (area_seen area.entry) (expr_of e.now)) }
{
    match area {
        Some(area) => match area {
            Area::Stored(_) => when(global && !is_first_value(e), 17),
            Area::Array(_, _) | Area::Struct(_) => Some(15),
        },
        None => None,
    }
}

fn has_more(places: Option<u64>, count: usize) -> bool
    ensures { result ≡ starts.has_more places count }
{
    match places {
        Some(places) => places < count as u64,
        None => false,
    }
}

/// The elements of an array, the fields of a struct.
fn place_count(items: &Items, area: &Area) -> Option<u64>
    ensures { result ≡ rules.place_count (earlier_of items.now) (area_of area.now) }
{
    match area {
        Area::Stored(_) => None,
        Area::Array(length, _) => Some(*length as u64),
        Area::Struct(number) => match struct_at(items, *number) {
            Some(found) => Some(found.fields.len() as u64),
            None => None,
        },
    }
}

/// The rule of so many initializers in braces for an area.
fn many_rule(items: &Items, area: Option<&Area>, count: usize) -> Option<u8>
    ensures { result ≡ least (starts.many_rows (earlier_of items.now) (area_seen area.entry) count) }
{
    match area {
        Some(area) => match area {
            Area::Stored(_) => Some(15),
            Area::Array(_, _) => when(has_more(place_count(items, area), count), 16),
            Area::Struct(_) => when(has_more(place_count(items, area), count), 16),
        },
        None => None,
    }
}

/// The first fault of an initializer for an area, which is one of the module where `global`.
#[cycle(inits)]
pub fn init_fault<'a>(
    context: &'a Context,
    global: bool,
    area: Option<&'a Area>,
    init: &InitText,
) -> Option<RuleFault>
    ensures { found result ≡ first_of (nodes.init_row (context_of context.now) global (area_seen area.entry) (init_of init.now)) }
{
    match init {
        InitText::One(e) => one_fault(context, global, area, e),
        InitText::Many(inits, span) => {
            let within = inits_fault(context, global, area, inits);
            many_fault(context, global, area, inits, *span, within)
        }
    }
}

fn one_fault<'a>(
    context: &'a Context,
    global: bool,
    area: Option<&'a Area>,
    e: &Expr,
) -> Option<RuleFault>
    ensures { found result ≡ first_of (nodes.init_row (context_of context.now) global (area_seen area.entry) (One (expr_of e.now))) }
{
    let within = expression_fault(context, of_cell(area), e);
    at_place(one_rule(global, area, e), e.span, within)
}

fn many_fault<'a>(
    context: &'a Context,
    global: bool,
    area: Option<&'a Area>,
    inits: &Seq<InitText>,
    span: Span,
    within: Option<RuleFault>,
) -> Option<RuleFault>
    requires { found within ≡ first_of (nodes.inits_row (context_of context.now) global (area_seen area) 0 (inits_of inits.now)) }
    ensures { found result ≡ first_of (nodes.init_row (context_of context.now) global (area_seen area.entry) (Many span (inits_of inits.now))) }
{
    at_place(many_rule(&context.items, area, inits.len()), span, within)
}

#[cycle(inits)]
fn inits_fault<'a>(
    context: &'a Context,
    global: bool,
    area: Option<&'a Area>,
    inits: &Seq<InitText>,
) -> Option<RuleFault>
    ensures { found result ≡ first_of (nodes.inits_row (context_of context.now) global (area_seen area.entry) 0 (inits_of inits.now)) }
{
    for (at, init) in inits.as_slice().iter().enumerate() {
        let place = place_in(&context.items, area, at);
        if let Some(fault) = init_fault(context, global, place, init) {
            return Some(fault);
        }
    }
    None
}
