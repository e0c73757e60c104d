//! The core of an initializer for an area.

ghost use Rattle.std.specs.Prelude.{◌≡◌, map, IfOk, OnOk};
ghost use Rattle.area_types.specs.View.{area_of, field_of};
ghost use Rattle.core_tree.specs.Syntax as core_syntax;
ghost use Rattle.core_tree.specs.View as tree;
ghost use Rattle.ivory_tree.specs.View.{expr_of, init_of, inits_of};
ghost use Rattle.rule_checker.specs.View.{type_at};
ghost use Rattle.typing_rules.specs.ExpressionCores.{core_of};
ghost use Rattle.typing_rules.specs.StatementCores.{init_core, elements_core, fields_core};
ghost use Rattle.check_numbers.specs.Numbered.{expr_from, expr_after};
ghost use Rattle.check_numbers.specs.NumberedParts.{init_from, init_after, inits_from, inits_after};
ghost use Rattle.core_maker.specs.Initializers.{cell_want, fields_at};
ghost use Rattle.core_maker.specs.Places.{env_of, Agrees};

use crate::expressions::expression;
use crate::place::Place;
use area_types::{Area, FieldDef};
use core_tree::CoreInit;
use iv_words::{Memory, Seq};
use ivory_tree::{Expr, InitText};
use rule_checker::TypeRef;
use std::alloc::Global;

/// What the expression for an area is wanted as.
fn cell_type(area: &Area) -> TypeRef
    ensures { type_at result ≡ cell_want (area_of area.now) }
{
    match area {
        Area::Stored(held) => TypeRef::of(held),
        Area::Array(_, _) | Area::Struct(_) => TypeRef::Bool,
    }
}

#[tactic(auto, using(core_tree::proofs::View::one_is))]
fn one(
    alloc: Global,
    place: &Place,
    area: &Area,
    e: &Expr,
    next: &mut u32,
) -> Result<CoreInit, Memory>
    requires { Agrees place.now }
    ensures init { IfOk result (λ c. tree.init_of c ≡ core_syntax.One (expr_from next.old (core_of (env_of place.now) (cell_want (area_of area.now)) (expr_of e.now)))) }
    ensures after { OnOk result (next.new ≡ expr_after next.old (core_of (env_of place.now) (cell_want (area_of area.now)) (expr_of e.now))) }
{
    Ok(CoreInit::One(expression(alloc, place, cell_type(area), e, next)?))
}

/// The core of an initializer for the area, with its checks numbered from `next` on.
#[cycle(inits)]
#[tactic(auto, using(crate::proofs::Listed::init_one))]
pub fn init(
    alloc: Global,
    place: &Place,
    text: &InitText,
    area: &Area,
    next: &mut u32,
) -> Result<CoreInit, Memory>
    requires { Agrees place.now }
    ensures init { IfOk result (λ c. tree.init_of c ≡ init_from next.old (init_core (env_of place.now) (area_of area.now) (init_of text.now))) }
    ensures after { OnOk result (next.new ≡ init_after next.old (init_core (env_of place.now) (area_of area.now) (init_of text.now))) }
{
    match text {
        InitText::One(e) => one(alloc, place, area, e, next),
        InitText::Many(inits, _) => match area {
            Area::Stored(_) => Ok(many(Seq::new(alloc))),
            Area::Array(_, element) => Ok(many(elements(alloc, place, inits, element, next)?)),
            Area::Struct(number) => Ok(many(fields(alloc, place, inits, *number, next)?)),
        },
    }
}

#[tactic(auto, using(core_tree::proofs::View::many_is))]
fn many(inits: Seq<CoreInit>) -> CoreInit
    ensures { tree.init_of result ≡ core_syntax.Many (tree.inits_of inits) }
{
    CoreInit::Many(inits)
}

/// Initializers for elements that are all such an area.
#[cycle(inits)]
fn elements(
    alloc: Global,
    place: &Place,
    inits: &Seq<InitText>,
    element: &Area,
    next: &mut u32,
) -> Result<Seq<CoreInit>, Memory>
    requires { Agrees place.now }
    ensures inits { IfOk result (λ cs. tree.inits_of cs ≡ inits_from next.old (elements_core (env_of place.now) (area_of element.now) (inits_of inits.now))) }
    ensures after { OnOk result (next.new ≡ inits_after next.old (elements_core (env_of place.now) (area_of element.now) (inits_of inits.now))) }
{
    let mut made = Seq::new(alloc);
    for text in inits.as_slice() {
        made.push(init(alloc, place, text, element, next)?)?;
    }
    Ok(made)
}

/// The fields of the struct of that number.
fn struct_fields<'a>(place: &'a Place, number: u32) -> &'a [FieldDef]
    ensures { map field_of result.now ≡ fields_at (env_of place.now) number }
{
    match place.context.items.structs.get(number as usize) {
        Some(found) => found.fields.as_slice(),
        None => &[],
    }
}

/// Initializers for the fields of the struct of that number, from the first on.
#[cycle(inits)]
#[tactic(auto, using(crate::proofs::Listed::no_fields, crate::proofs::Listed::no_places))]
fn fields(
    alloc: Global,
    place: &Place,
    inits: &Seq<InitText>,
    number: u32,
    next: &mut u32,
) -> Result<Seq<CoreInit>, Memory>
    requires { Agrees place.now }
    ensures inits { IfOk result (λ cs. tree.inits_of cs ≡ inits_from next.old (fields_core (env_of place.now) (fields_at (env_of place.now) number) (inits_of inits.now))) }
    ensures after { OnOk result (next.new ≡ inits_after next.old (fields_core (env_of place.now) (fields_at (env_of place.now) number) (inits_of inits.now))) }
{
    let mut made = Seq::new(alloc);
    let mut rest = struct_fields(place, number);
    for text in inits.as_slice() {
        match rest.split_first() {
            Some((field, later)) => {
                made.push(init(alloc, place, text, &field.area, next)?)?;
                rest = later;
            }
            None => return Ok(made),
        }
    }
    Ok(made)
}
