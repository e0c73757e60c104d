//! What is known before the parts of an item.

ghost use Rattle.std.specs.Prelude.{◌≡◌, false, is_some, option_map};
ghost use Rattle.area_types.specs.View.{type_of};
ghost use Rattle.rule_checker.specs.Contexts.{earlier_of};
ghost use Rattle.typing_rules.specs.WellTyped.{outside};
ghost use Rattle.core_maker.specs.Places.{env_of, Agrees};
ghost use Rattle.item_maker.specs.Places.{SameItems};

use alloc_effects::Allowed;
use area_types::ValueType;
use core_maker::Place;
use iv_words::{Seq, Word};
use std::alloc::Global;

/// Outside of bodies nothing is allowed.
fn of_no_code() -> Allowed
    ensures { result ≡ record { may_alloc = false; may_break = false; may_return = false } }
{
    Allowed {
        may_alloc: false,
        may_break: false,
        may_return: false,
    }
}

/// Goes to the head of an item with these region parameters, where nothing is in scope.
pub(crate) fn begin(alloc: Global, place: &mut Place, regions: Seq<Word>)
    ensures env { env_of place.new ≡ record (outside place.old.context.names (earlier_of place.old.context.items)) { regions = regions } }
    ensures agrees { Agrees place.new }
    ensures same { SameItems place.old place.new }
    ensures regions { place.new.context.regions ≡ regions }
{
    place.context.regions = regions;
    place.context.gives = false;
    place.context.result = None;
    place.context.in_ensures = false;
    place.context.allowed = of_no_code();
    place.context.scope = Seq::new(alloc);
    place.numbers = Seq::new(alloc);
    place.locals = Seq::new(alloc);
}

fn is_there(result_type: &Option<ValueType>) -> bool
    ensures { result ≡ is_some (option_map type_of result_type.now) }
{
    match result_type {
        Some(_) => true,
        None => false,
    }
}

/// Gives a procedure its result.
pub(crate) fn give(place: &mut Place, result_type: Option<ValueType>)
    requires { Agrees place.old }
    ensures env { env_of place.new ≡ record (env_of place.old) { result = option_map type_of result_type } }
    ensures agrees { Agrees place.new }
    ensures same { SameItems place.old place.new }
{
    place.context.gives = is_there(&result_type);
    place.context.result = result_type;
}
