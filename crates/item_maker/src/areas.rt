//! The cores of areas of the module.

ghost use Rattle.std.specs.Prelude.{◌≡◌, IfOk, option_map};
ghost use Rattle.area_types.specs.View as seen;
ghost use Rattle.core_tree.specs.View.{init_of, area_item_of};
ghost use Rattle.ivory_tree.specs.View as text;
ghost use Rattle.rule_checker.specs.Contexts.{earlier_of};
ghost use Rattle.source_types.specs.Written as written;
ghost use Rattle.typing_rules.specs.ItemCores.{first_core, area_core};
ghost use Rattle.typing_rules.specs.StatementCores.{area_or};
ghost use Rattle.core_maker.specs.Places.{env_of, Agrees};
ghost use Rattle.item_maker.specs.FirstValues.{numbered_init};

use area_types::{Area, ValueType};
use area_values::first_values;
use core_maker::{Place, init};
use core_tree::{CoreArea, CoreInit};
use iv_words::{Box, Memory, Seq};
use ivory_tree::{AreaItem, AreaText, InitText};
use rule_checker::{Items, area_in};
use std::alloc::Global;

/// The area that a text names; a bool where it names none.
fn named_area(alloc: Global, items: &Items, a: &AreaText) -> Result<Area, Memory>
    ensures { IfOk result (λ x. seen.area_of x ≡ area_or (written.area_in (earlier_of items.now) (text.area_of a.now))) }
{
    match area_in(alloc, items, a)? {
        Some(area) => Ok(area),
        None => Ok(Area::Stored(Box::new(alloc, ValueType::Bool)?)),
    }
}

/// The initializer, where there is one. Its checks are of no account, for its cells are constants.
fn maybe_init(
    alloc: Global,
    place: &Place,
    area: &Area,
    given: &Option<InitText>,
) -> Result<Option<CoreInit>, Memory>
    requires { Agrees place.now }
    ensures { IfOk result (λ i. option_map init_of i ≡ numbered_init (env_of place.now) (seen.area_of area.now) (option_map text.init_of given.now)) }
{
    match given {
        Some(given) => {
            let mut next = 0;
            Ok(Some(init(alloc, place, given, area, &mut next)?))
        }
        None => Ok(None),
    }
}

/// The first values of its cells.
#[tactic(auto, using(crate::proofs::FirstValues::first_values_are))]
fn first_of(
    alloc: Global,
    place: &Place,
    area: &Area,
    given: &Option<InitText>,
) -> Result<Seq<i128>, Memory>
    requires { Agrees place.now }
    ensures { IfOk result (λ values. values ≡ first_core (env_of place.now) (seen.area_of area.now) (option_map text.init_of given.now)) }
{
    let init = maybe_init(alloc, place, area, given)?;
    first_values(alloc, place.context.items.structs.as_slice(), area, &init)
}

/// The core of an area.
pub(crate) fn area(alloc: Global, place: &Place, item: &AreaItem) -> Result<CoreArea, Memory>
    requires { Agrees place.now }
    ensures { IfOk result (λ a. area_item_of a ≡ area_core (env_of place.now) (text.global_of item.now)) }
{
    let area = named_area(alloc, &place.context.items, &item.area)?;
    let first = first_of(alloc, place, &area, &item.init)?;
    Ok(CoreArea {
        name: item.name.text.copy(alloc)?,
        constant: item.constant,
        area,
        first,
    })
}
