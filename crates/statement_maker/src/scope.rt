//! Names that come into scope, with their numbers, and leave it at the end of a block.

ghost use Rattle.std.specs.Prelude.{◌≡◌, IfOk, OnOk};
ghost use Rattle.area_types.specs.Syntax as types;
ghost use Rattle.area_types.specs.View.{type_of};
ghost use Rattle.typing_rules.specs.Environments as typing;
ghost use Rattle.core_maker.specs.Places.{env_of, Agrees};
ghost use Rattle.statement_maker.specs.Leaving.{around_of, left_with};
ghost use Rattle.statement_maker.specs.Places.{Stays};

use alloc_effects::Allowed;
use area_types::ValueType;
use core_maker::{Place, number};
use iv_words::{Memory, Word};
use rule_checker::Local;
use std::alloc::Global;

/// The number of the next local.
pub fn next_number(place: &Place) -> Result<u32, Memory>
    ensures { IfOk result (λ n. n ≡ typing.next (env_of place.now)) }
{
    number(Some(place.locals.len()))
}

/// Puts a name into scope, and gives its number.
#[tactic(auto, using(crate::proofs::Scopes::named_is, crate::proofs::Scopes::named_stays))]
pub fn add_name(alloc: Global, place: &mut Place, name: &Word, ty: ValueType) -> Result<u32, Memory>
    requires { Agrees place.old }
    ensures number { IfOk result (λ n. n ≡ typing.next (env_of place.old)) }
    ensures env { OnOk result (env_of place.new ≡ typing.with_local (env_of place.old) name.now (type_of ty)) }
    ensures stays { OnOk result (Stays place.old place.new) }
{
    let number = next_number(&*place)?;
    let name = name.copy(alloc)?;
    let local = Local {
        name,
        ty: Some(ty.copy(alloc)?),
    };
    place.context.scope.push(local)?;
    place.numbers.push(number)?;
    place.locals.push(ty)?;
    Ok(number)
}

/// The type of the index of a loop.
#[tactic(auto, using(area_types::proofs::View::ix_is))]
pub(crate) fn index_type(length: u32) -> ValueType
    ensures { type_of result ≡ types.Ix length }
{
    ValueType::Ix(length)
}

/// How much is in scope around a block, and what is allowed there.
#[derive(Clone, Copy)]
pub(crate) struct Around {
    pub names: usize,
    pub numbers: usize,
    pub allowed: Allowed,
}

pub(crate) fn what_is_around(place: &Place) -> Around
    ensures { result ≡ around_of place.now }
{
    Around {
        names: place.context.scope.len(),
        numbers: place.numbers.len(),
        allowed: place.context.allowed,
    }
}

/// Takes out of scope all but the names around a block, and allows again what is allowed there.
pub(crate) fn leave(place: &mut Place, around: Around)
    ensures { place.new ≡ left_with place.old around }
{
    place.context.allowed = around.allowed;
    place.context.scope.truncate(around.names);
    place.numbers.truncate(around.numbers);
}
