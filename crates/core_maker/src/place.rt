//! What is known at a place of the module, and the numbers of the locals.

ghost use Rattle.std.specs.Prelude.{◌≡◌, option_and_then, slice_get};
ghost use Rattle.std.specs.List.{position_from};
ghost use Rattle.iv_words.specs.Words.{same_word};
ghost use Rattle.ivory_tree.specs.View as text;
ghost use Rattle.rule_checker.specs.View.{type_at};
ghost use Rattle.rule_checker.specs.declared.Local as checker;
ghost use Rattle.typing_rules.specs.ExpressionCores as cores;
ghost use Rattle.core_maker.specs.Places.{env_of, Agrees};

use area_types::{Area, ValueType};
use core_parts::{bit_field_number, struct_field_number};
use iv_words::{Seq, Word};
use ivory_tree::Expr;
use rule_checker::{Context, TypeRef, own_type};

/// What the rules know at the place, with the number of each name in scope, and the types of all locals of the procedure so far.
#[derive(Drop)]
pub struct Place {
    pub context: Context,
    pub numbers: Seq<u32>,
    pub locals: Seq<ValueType>,
}

/// The type that the expression has by its form.
pub fn own<'a>(place: &'a Place, e: &Expr) -> TypeRef<'a>
    requires { Agrees place.now }
    ensures { type_at result ≡ cores.own (env_of place.now) (text.expr_of e.now) }
{
    match own_type(&place.context, e) {
        Some(t) => t,
        None => TypeRef::Bool,
    }
}

/// The place of the name among those in scope.
fn position_in_scope(place: &Place, name: &Word) -> Option<usize>
    ensures { result ≡ position_from (λ (l : checker.Local). same_word l.name name.now) 0 place.now.context.scope }
{
    for (at, local) in place.context.scope.iter().enumerate() {
        if local.name == *name {
            return Some(at);
        }
    }
    None
}

/// The number at that place, where there is one.
fn number_at(numbers: &Seq<u32>, at: Option<usize>) -> Option<u32>
    ensures { result ≡ option_and_then (slice_get numbers.now) at }
{
    match at {
        Some(at) => match numbers.get(at) {
            Some(number) => Some(*number),
            None => None,
        },
        None => None,
    }
}

/// The number of the local of the name.
pub(crate) fn local_number(place: &Place, name: &Word) -> Option<u32>
    ensures { result ≡ cores.local_number (env_of place.now) name.now }
{
    number_at(&place.numbers, position_in_scope(place, name))
}

/// The place of the field among those of bit data, or of the struct behind a reference.
pub(crate) fn number_in(place: &Place, t: TypeRef, name: &Word) -> Option<usize>
    ensures { result ≡ cores.number_in (env_of place.now) (type_at t.entry) name.now }
{
    match t {
        TypeRef::Bits(number) => bit_field_number(&place.context.items, number, name),
        TypeRef::Ref(reference) => match reference.area {
            Area::Struct(number) => struct_field_number(&place.context.items, *number, name),
            Area::Stored(_) | Area::Array(_, _) => None,
        },
        TypeRef::Bool | TypeRef::Int(_) | TypeRef::Ix(_) => None,
    }
}
