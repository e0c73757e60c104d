//! Functions' names, results and parameters.

ghost use Rattle.std.specs.Prelude.{◌≡◌, ◌++◌, [], codes, map, OnOk};
ghost use Rattle.std.specs.Prelude.{◌&&◌, nat_lt, length};
ghost use Rattle.c_ast.specs.Names.{has_prefix};
ghost use Rattle.c_text.specs.Rules.{behind};
ghost use Rattle.c_text.specs.Scopes as scopes;
ghost use Rattle.c_text.specs.Scopes.{new_name, with_const};
ghost use Rattle.c_text.specs.Spelling.{params_text, param_text};
ghost use Rattle.c_text.specs.TypeText.{const_text, listed, type_text, typed_text};
ghost use Rattle.c_text.specs.ExpressionRules.{type_demands};
ghost use Rattle.c_text.specs.UnitRules.{file_name, params_demands, types_demands, with_params};
ghost use Rattle.c_rules.specs.Kept.{Kept};
ghost use Rattle.c_scopes.specs.Scope.{names_view};
ghost use Rattle.c_scopes.specs.Walks.{Walks};

use crate::decl::{check_const, declare_const};
use c_ast::{CParam, CType};
use c_expression_rules::{check_type, pass_comma};
use c_scopes::{Names, Walk, gap_name};
use c_text::CWhy;
use iv_words::{Memory, Word};

fn begins_as_of_file(bytes: &[u8]) -> bool
    ensures { result ≡ (has_prefix bytes.now && nat_lt 3 (length bytes.now)) }
{
    bytes.starts_with(b"iv_") && bytes.len() > 3
}

/// Whether a function, extern or object may have the name.
fn is_of_file(name: &Word) -> bool
    ensures { result ≡ scopes.is_of_file name.now }
{
    let bytes = name.as_slice();
    begins_as_of_file(bytes) || bytes == b"ivory_stop".as_slice()
}

/// A name that is declared at file scope.
pub fn check_file_name(names: &Names, name: &Word, walk: &mut Walk)
    ensures { Walks walk.old walk.new name.now (file_name (names_view names.now) walk.old.at name.now) }
{
    walk.ask(walk.at, CWhy::BadName, is_of_file(name));
    let taken = names.is_taken(name);
    walk.ask(walk.at, CWhy::BadName, !taken);
    walk.pass(name.as_slice());
}

/// A result and its function.
pub fn check_typed(names: &Names, ty: &CType, name: &Word, walk: &mut Walk)
    ensures { Walks walk.old walk.new (typed_text ty.now name.now) (type_demands (names_view names.now) walk.old.at ty.now ++ file_name (names_view names.now) (behind walk.old.at (typed_text ty.now [])) name.now) }
{
    check_type(names, ty, walk);
    walk.pass(gap_name(ty));
    check_file_name(names, name, walk);
}

// ---- parameters without names

fn check_listed_types(names: &Names, types: &[CType], walk: &mut Walk)
    ensures { Walks walk.old walk.new (listed (map type_text types.now)) (types_demands (names_view names.now) walk.old.at types.now) }
{
    let mut more = false;
    for ty in types {
        pass_comma(more, walk);
        check_type(names, ty, walk);
        more = true;
    }
}

/// Types in parentheses, or `(void)`.
pub fn check_types(names: &Names, types: &[CType], walk: &mut Walk)
    ensures { Walks walk.old walk.new (params_text (map type_text types.now)) (types_demands (names_view names.now) (behind walk.old.at (codes "(")) types.now) }
{
    if types.len() == 0 {
        walk.pass(b"(void)");
    } else {
        walk.pass(b"(");
        check_listed_types(names, types, walk);
        walk.pass(b")");
    }
}

// ---- parameters with names

fn check_param<'u>(names: &mut Names<'u>, param: &'u CParam, walk: &mut Walk) -> Result<(), Memory>
    ensures walks { Walks walk.old walk.new (param_text param.now) (type_demands (names_view names.old) walk.old.at param.now.ty ++ new_name (names_view names.old) (behind walk.old.at (const_text param.now.ty [])) param.now.name) }
    ensures view { OnOk result (names_view names.new ≡ with_const (names_view names.old) param.now.name param.now.ty) }
    ensures kept { OnOk result (Kept names.old names.new) }
{
    check_const(&*names, &param.ty, &param.name, walk);
    declare_const(names, &param.name, &param.ty)
}

fn check_listed_params<'u>(
    names: &mut Names<'u>,
    params: &'u [CParam],
    walk: &mut Walk,
) -> Result<(), Memory>
    ensures walks { OnOk result (Walks walk.old walk.new (listed (map param_text params.now)) (params_demands (names_view names.old) walk.old.at params.now)) }
    ensures view { OnOk result (names_view names.new ≡ with_params (names_view names.old) params.now) }
    ensures kept { OnOk result (Kept names.old names.new) }
{
    let mut more = false;
    for param in params {
        pass_comma(more, walk);
        check_param(names, param, walk)?;
        more = true;
    }
    Ok(())
}

/// Parameters in parentheses, or `(void)`.
pub fn check_params<'u>(
    names: &mut Names<'u>,
    params: &'u [CParam],
    walk: &mut Walk,
) -> Result<(), Memory>
    ensures walks { OnOk result (Walks walk.old walk.new (params_text (map param_text params.now)) (params_demands (names_view names.old) (behind walk.old.at (codes "(")) params.now)) }
    ensures view { OnOk result (names_view names.new ≡ with_params (names_view names.old) params.now) }
    ensures kept { OnOk result (Kept names.old names.new) }
{
    if params.len() == 0 {
        walk.pass(b"(void)");
        return Ok(());
    }
    walk.pass(b"(");
    check_listed_params(names, params, walk)?;
    walk.pass(b")");
    Ok(())
}
