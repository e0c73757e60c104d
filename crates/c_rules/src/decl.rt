//! Names that are declared.

ghost use Rattle.std.specs.Prelude.{◌≡◌, [], ◌∷◌, ◌++◌, take, OnOk};
ghost use Rattle.c_text.specs.Rules.{behind};
ghost use Rattle.c_text.specs.TypeText.{const_text, object_text};
ghost use Rattle.c_text.specs.Scopes.{new_name, with_value, with_const};
ghost use Rattle.c_text.specs.ExpressionRules.{base_demands, type_demands};
ghost use Rattle.c_rules.specs.Kept.{Kept};
ghost use Rattle.c_scopes.specs.Scope.{entity_view, names_view};
ghost use Rattle.c_scopes.specs.Walks.{Walks};

use c_ast::{CBase, CType};
use c_expression_rules::{check_base, check_type};
use c_scopes::{Entity, Names, Signature, Walk, Wanted, gap_name, wanted_of};
use c_text::CWhy;
use iv_words::{Memory, Word};

/// The type and the name of what holds a value.
pub fn check_const(names: &Names, ty: &CType, name: &Word, walk: &mut Walk)
    ensures { Walks walk.old walk.new (const_text ty.now name.now) (type_demands (names_view names.now) walk.old.at ty.now ++ new_name (names_view names.now) (behind walk.old.at (const_text ty.now [])) name.now) }
{
    check_type(names, ty, walk);
    walk.pass(gap_name(ty));
    walk.pass(b"const ");
    let taken = names.is_taken(name);
    walk.ask(walk.at, CWhy::BadName, !taken);
    walk.pass(name.as_slice());
}

/// The type and the name of an object.
pub fn check_object(names: &Names, base: &CBase, name: &Word, walk: &mut Walk)
    ensures { Walks walk.old walk.new (object_text base.now name.now) (base_demands (names_view names.now) walk.old.at base.now ++ new_name (names_view names.now) (behind walk.old.at (object_text base.now [])) name.now) }
{
    check_base(names, base, walk);
    walk.pass(b" ");
    let taken = names.is_taken(name);
    walk.ask(walk.at, CWhy::BadName, !taken);
    walk.pass(name.as_slice());
}

/// Puts a name into scope.
pub fn declare<'u>(names: &mut Names<'u>, name: &'u Word, entity: Entity<'u>) -> Result<(), Memory>
    ensures view { OnOk result (names_view names.new ≡ with_value (names_view names.old) name.now (entity_view entity.entry)) }
    ensures kept { OnOk result (Kept names.old names.new) }
{
    names.values.declare(name, entity)
}

/// Puts a name that holds a value into scope.
pub fn declare_const<'u>(names: &mut Names<'u>, name: &'u Word, ty: &'u CType) -> Result<(), Memory>
    ensures view { OnOk result (names_view names.new ≡ with_const (names_view names.old) name.now ty.now) }
    ensures kept { OnOk result (Kept names.old names.new) }
{
    match wanted_of(ty) {
        Wanted::Void => Ok(()),
        Wanted::Scalar(scalar) => declare(names, name, Entity::Number(scalar)),
        Wanted::Pointer(constant, base) => declare(names, name, Entity::Pointer(constant, base)),
    }
}

/// Puts a function into scope, which can be called from there on.
pub fn declare_function<'u>(
    names: &mut Names<'u>,
    name: &'u Word,
    signature: Signature<'u>,
) -> Result<(), Memory>
    ensures { OnOk result (names.new ≡ record names.old { functions = (name.now, signature.entry) ∷ names.old.functions }) }
{
    names.functions.declare(name, signature)
}

/// Puts an object of file scope into scope.
pub fn declare_object<'u>(
    names: &mut Names<'u>,
    name: &'u Word,
    entity: Entity<'u>,
) -> Result<(), Memory>
    ensures { OnOk result (names.new ≡ record names.old { objects = (name.now, entity.entry) ∷ names.old.objects }) }
{
    names.objects.declare(name, entity)
}

/// Takes out of scope all but the first names.
pub fn leave(names: &mut Names, count: usize)
    ensures { names.new ≡ record names.old { values = take count names.old.values } }
{
    names.values.truncate(count);
}
