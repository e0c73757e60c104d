//! Whole units.

ghost use Rattle.std.specs.Prelude.{◌≡◌, ◌≤◌, [], length, map, IfOk, OnOk, None};
ghost use Rattle.c_ast.specs.View.{function_of, object_of, unit_of};
ghost use Rattle.c_text.specs.FirstFault.{first_fault};
ghost use Rattle.c_text.specs.Spelling.{extern_text, file_object_text, fixed_text, function_text, struct_text, unit_text};
ghost use Rattle.c_text.specs.TypeText.{texts};
ghost use Rattle.c_text.specs.UnitRules.{extern_demands, file_scope, function_demands, unit_demands};
ghost use Rattle.c_rules.specs.Kept.{ButObjects, OthersStay};
ghost use Rattle.c_scopes.specs.Scope.{names_view, stop_alone};
ghost use Rattle.c_scopes.specs.StructViews.{structs_view};
ghost use Rattle.c_rules.specs.UnitRows.{behind_externs, extern_rows, functions_asks, objects_asks, structs_asks, with_extern, with_function, with_objects};
ghost use Rattle.c_scopes.specs.Walks.{Walks};

use crate::decl::declare_function;
use crate::declarations::{check_extern, check_file_object, check_function};
use crate::structs::check_struct;
use c_ast::{CExtern, CFunction, CObject, CUnit, Target};
use c_scopes::{Names, Signature, StructTable, Structs, Walk, all_structs};
use c_text::CFault;
use iv_words::{Memory, Seq};
use name_tables::{NameTable, ScopeTable};
use std::alloc::Global;

/// The names of file scope behind these structs.
fn names_behind<'u>(alloc: Global, target: Target, structs: Structs<'u>) -> Names<'u>
    ensures target { result.target ≡ target }
    ensures structs { result.structs ≡ structs.entry }
    ensures itself { result.itself ≡ None }
    ensures values { result.values ≡ [] }
    ensures view { names_view result ≡ file_scope (structs_view structs.entry) stop_alone [] }
{
    Names {
        target,
        structs,
        functions: NameTable::new(alloc),
        objects: NameTable::new(alloc),
        itself: None,
        values: ScopeTable::new(alloc),
    }
}

fn check_structs(
    alloc: Global,
    target: Target,
    table: &StructTable,
    walk: &mut Walk,
) -> Result<(), Memory>
    ensures { OnOk result (Walks walk.old walk.new (texts (map struct_text table.now)) (structs_asks target [] walk.old.at table.now)) }
{
    let mut sized = Seq::new(alloc);
    for i in 0..table.len() {
        let names = names_behind(
            alloc,
            target,
            Structs {
                table: &*table,
                count: i,
            },
        );
        let size = check_struct(
            &names,
            sized.as_slice(),
            table.tag(i),
            table.members(i),
            walk,
        );
        sized.push(size)?;
    }
    Ok(())
}

/// An extern, which can be called behind it.
fn check_next_extern<'u>(
    names: &mut Names<'u>,
    declared: &'u CExtern,
    walk: &mut Walk,
) -> Result<(), Memory>
    ensures walks { Walks walk.old walk.new (extern_text declared.now) (extern_demands (names_view names.old) walk.old.at declared.now) }
    ensures next { OnOk result (names_view names.new ≡ with_extern (names_view names.old) declared.now) }
    ensures others { OnOk result (OthersStay names.old names.new) }
{
    check_extern(&*names, declared, walk);
    declare_function(names, &declared.name, Signature::Extern(declared))
}

fn check_externs<'u>(
    names: &mut Names<'u>,
    externs: &'u [CExtern],
    walk: &mut Walk,
) -> Result<(), Memory>
    ensures walks { OnOk result (Walks walk.old walk.new (texts (map extern_text externs.now)) (extern_rows (names_view names.old) walk.old.at externs.now)) }
    ensures view { OnOk result (names_view names.new ≡ behind_externs (names_view names.old) externs.now) }
    ensures others { OnOk result (OthersStay names.old names.new) }
{
    for declared in externs {
        check_next_extern(names, declared, walk)?;
    }
    Ok(())
}

fn check_objects<'u>(
    names: &mut Names<'u>,
    objects: &'u [CObject],
    walk: &mut Walk,
) -> Result<(), Memory>
    requires { names.old.values ≡ [] }
    ensures walks { OnOk result (Walks walk.old walk.new (texts (map file_object_text (map object_of objects.now))) (objects_asks names.old.target (names_view names.old) walk.old.at (map object_of objects.now))) }
    ensures view { OnOk result (names_view names.new ≡ with_objects (names_view names.old) (map object_of objects.now)) }
    ensures others { OnOk result (ButObjects names.old names.new) }
{
    for object in objects {
        check_file_object(names, object, walk)?;
    }
    Ok(())
}

/// A function, which can be called behind it.
fn check_next_function<'u>(
    names: &mut Names<'u>,
    function: &'u CFunction,
    walk: &mut Walk,
) -> Result<(), Memory>
    requires { names.old.itself ≡ None }
    ensures walks { OnOk result (Walks walk.old walk.new (function_text (function_of function.now)) (function_demands names.old.target (names_view names.old) walk.old.at (function_of function.now))) }
    ensures next { OnOk result (names_view names.new ≡ with_function (names_view names.old) (function_of function.now)) }
    ensures others { OnOk result (OthersStay names.old names.new) }
{
    check_function(names, function, walk)?;
    declare_function(names, &function.name, Signature::Function(function))
}

fn check_functions<'u>(
    names: &mut Names<'u>,
    functions: &'u [CFunction],
    walk: &mut Walk,
) -> Result<(), Memory>
    requires { names.old.itself ≡ None }
    ensures { OnOk result (Walks walk.old walk.new (texts (map function_text (map function_of functions.now))) (functions_asks names.old.target (names_view names.old) walk.old.at (map function_of functions.now))) }
{
    for function in functions {
        check_next_function(names, function, walk)?;
    }
    Ok(())
}

/// The three lines with which each text begins.
fn pass_fixed(walk: &mut Walk)
    ensures { Walks walk.old walk.new fixed_text [] }
{
    walk.pass(b"#include <stdint.h>\n#include <stdbool.h>\nextern void ivory_stop(uint32_t);\n");
}

/// A unit with its structs in a table.
fn check_tabled<'u>(
    alloc: Global,
    unit: &'u CUnit,
    table: &'u StructTable<'u>,
    target: Target,
    walk: &mut Walk,
) -> Result<(), Memory>
    requires start { walk.old.at ≡ 0 }
    requires tabled { table.now ≡ unit.now.structs }
    ensures { OnOk result (Walks walk.old walk.new (unit_text (unit_of unit.now)) (unit_demands target (unit_of unit.now))) }
{
    pass_fixed(walk);
    check_structs(alloc, target, table, walk)?;
    let mut names = names_behind(alloc, target, all_structs(table));
    check_externs(&mut names, unit.externs.as_slice(), walk)?;
    check_objects(&mut names, unit.objects.as_slice(), walk)?;
    check_functions(&mut names, unit.functions.as_slice(), walk)
}

/// The same, with the unit and its table lent for as long as the names of both are held.
fn check_lent(
    alloc: Global,
    unit: &CUnit,
    table: &StructTable,
    target: Target,
    walk: &mut Walk,
) -> Result<(), Memory>
    requires start { walk.old.at ≡ 0 }
    requires tabled { table.now ≡ unit.now.structs }
    ensures { OnOk result (Walks walk.old walk.new (unit_text (unit_of unit.now)) (unit_demands target (unit_of unit.now))) }
{
    check_tabled(alloc, &*unit, &*table, target, walk)
}

fn check_unit(alloc: Global, unit: &CUnit, target: Target, walk: &mut Walk) -> Result<(), Memory>
    requires { walk.old.at ≡ 0 }
    ensures { OnOk result (Walks walk.old walk.new (unit_text (unit_of unit.now)) (unit_demands target (unit_of unit.now))) }
{
    let table = StructTable::new(alloc, unit.structs.as_slice())?;
    check_lent(alloc, unit, &table, target, walk)
}

/// The first place of a unit's text that breaks a rule of names or of types, or none where its names and types are right. Of two that
/// are broken at one place, a rule of names comes first. The text has at most 268,435,456 bytes, so that its places fit.
pub fn first_broken(alloc: Global, unit: &CUnit, target: Target) -> Result<Option<CFault>, Memory>
    ensures { IfOk result (λ fault. length (unit_text (unit_of unit.now)) ≤ 268435456 → fault ≡ first_fault (unit_demands target (unit_of unit.now))) }
{
    let mut walk = Walk { at: 0, fault: None };
    check_unit(alloc, unit, target, &mut walk)?;
    Ok(walk.fault)
}
