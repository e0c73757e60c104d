//! Externs, objects of file scope, and functions.

ghost use Rattle.std.specs.Prelude.{◌≡◌, ◌++◌, [], None, OnOk};
ghost use Rattle.c_ast.specs.View.{function_of, object_of};
ghost use Rattle.c_text.specs.Spelling.{base_const_text, extern_text, file_object_text, function_text, storage_text};
ghost use Rattle.c_text.specs.UnitRules.{extern_demands, function_demands, object_demands};
ghost use Rattle.c_rules.specs.Kept.{ButObjects};
ghost use Rattle.c_scopes.specs.Scope.{names_view};
ghost use Rattle.c_rules.specs.UnitRows.{with_object};
ghost use Rattle.c_scopes.specs.Walks.{Walks};

use crate::braces::Braces;
use crate::decl::{declare_object, leave};
use crate::params::{check_file_name, check_params, check_typed, check_types};
use crate::stmt::check_stmts;
use c_ast::{CExtern, CFunction, CObject};
use c_expression_rules::{check_base, check_init};
use c_scopes::{Entity, Names, Walk, base_of, shape_of, wanted_of};
use iv_words::Memory;

pub fn check_extern(names: &Names, declared: &CExtern, walk: &mut Walk)
    ensures { Walks walk.old walk.new (extern_text declared.now) (extern_demands (names_view names.now) walk.old.at declared.now) }
{
    walk.pass(b"extern ");
    check_typed(names, &declared.result, &declared.name, walk);
    check_types(names, declared.params.as_slice(), walk);
    walk.pass(b";");
    walk.pass(b"\n");
}

// ---- objects

/// `const` and a space before the name of a const object.
fn const_name(constant: bool) -> &'static [u8]
    ensures { result.now ≡ base_const_text constant }
{
    if constant { b"const " } else { b"" }
}

fn check_object_line<'u>(names: &Names<'u>, object: &'u CObject, walk: &mut Walk)
    ensures { Walks walk.old walk.new (file_object_text (object_of object.now)) (object_demands names.now.target (names_view names.now) walk.old.at (object_of object.now)) }
{
    walk.pass(b"static ");
    check_base(names, &object.base, walk);
    walk.pass(b" ");
    walk.pass(const_name(object.constant));
    check_file_name(names, &object.name, walk);
    walk.pass(b" = ");
    check_init(
        names,
        &shape_of(names.structs, &base_of(&object.base)),
        &object.init,
        walk,
    );
    walk.pass(b";");
    walk.pass(b"\n");
}

/// An object of file scope, which is in scope behind it.
pub fn check_file_object<'u>(
    names: &mut Names<'u>,
    object: &'u CObject,
    walk: &mut Walk,
) -> Result<(), Memory>
    requires { names.old.values ≡ [] }
    ensures walks { Walks walk.old walk.new (file_object_text (object_of object.now)) (object_demands names.old.target (names_view names.old) walk.old.at (object_of object.now)) }
    ensures view { OnOk result (names_view names.new ≡ with_object (names_view names.old) (object_of object.now)) }
    ensures others { OnOk result (ButObjects names.old names.new) }
{
    check_object_line(&*names, object, walk);
    declare_object(
        names,
        &object.name,
        Entity::Object(object.constant, base_of(&object.base)),
    )
}

// ---- functions

/// `static` and a space before a function that only its unit sees.
fn storage_name(hidden: bool) -> &'static [u8]
    ensures { result.now ≡ storage_text hidden }
{
    if hidden { b"static " } else { b"" }
}

/// A function at file scope: the names in scope are the same behind it.
pub fn check_function<'u>(
    names: &mut Names<'u>,
    function: &'u CFunction,
    walk: &mut Walk,
) -> Result<(), Memory>
    requires { names.old.itself ≡ None }
    ensures walks { OnOk result (Walks walk.old walk.new (function_text (function_of function.now)) (function_demands names.old.target (names_view names.old) walk.old.at (function_of function.now))) }
    ensures same { OnOk result (names.new ≡ names.old) }
{
    walk.pass(storage_name(function.hidden));
    check_typed(&*names, &function.result, &function.name, walk);
    let outside = names.values.len();
    names.itself = Some(&function.name);
    check_params(names, function.params.as_slice(), walk)?;
    walk.pass(b" {\n");
    let wanted = wanted_of(&function.result);
    check_stmts(
        names,
        &wanted,
        false,
        &Braces::In(&Braces::None),
        function.body.as_slice(),
        walk,
    )?;
    walk.pass(b"}\n");
    leave(names, outside);
    names.itself = None;
    Ok(())
}
