//! Statements and blocks.

ghost use Rattle.std.specs.Prelude.{◌≡◌, ◌+◌, ◌++◌, [], false, codes, OnOk, length, take};
ghost use Rattle.std.specs.Option.{option_map};
ghost use Rattle.c_ast.specs.declared.CType.TheVariants.{Void};
ghost use Rattle.c_ast.specs.Syntax.{Const, ConstCall, Object, Assign, Return};
ghost use Rattle.c_ast.specs.View.{expr_of, place_of, init_of, call_of, stmt_of, stmts_of};
ghost use Rattle.c_text.specs.Rules.{behind};
ghost use Rattle.c_text.specs.Scopes.{after};
ghost use Rattle.c_text.specs.TypeText.{line};
ghost use Rattle.c_text.specs.ExpressionText.{expr_text};
ghost use Rattle.c_text.specs.ExpressionRules.{tested_demands};
ghost use Rattle.c_text.specs.StatementText.{indent, first_value_text, stmt_text, stmts_text};
ghost use Rattle.c_text.specs.StatementRules as statements;
ghost use Rattle.c_text.specs.StatementRules.{first_value_demands, assigned_demands, stmt_demands, stmts_demands};
ghost use Rattle.c_rules.specs.Depths.{depth};
ghost use Rattle.c_rules.specs.Forms.{body_text, form_text};
ghost use Rattle.c_rules.specs.Kept.{Kept};
ghost use Rattle.c_scopes.specs.Scope.{names_view};
ghost use Rattle.c_scopes.specs.Views.{type_view};
ghost use Rattle.c_scopes.specs.Walks.{Walks};

use crate::braces::{Braces, pass_indent};
use crate::decl::{check_const, check_object, declare, declare_const, leave};
use c_ast::{CBase, CCall, CExpr, CInit, CPlace, CScalar, CStmt, CType};
use c_expression_rules::{
    check_call, check_expr, check_given, check_init, check_place, check_tested,
};
use c_scopes::{
    Entity, Names, Walk, Wanted, assigned_scalar, base_of, can_be_assigned, shape_of, wanted_of,
};
use c_text::CWhy;
use iv_words::{Memory, Word};

fn check_const_value<'u>(
    names: &Names<'u>,
    name: &Word,
    ty: &'u CType,
    value: &'u CExpr,
    walk: &mut Walk,
)
    ensures { Walks walk.old walk.new (form_text 0 (Const name.now ty.now (expr_of value.now))) (stmt_demands names.now.target Void false 0 (names_view names.now) walk.old.at (Const name.now ty.now (expr_of value.now))) }
{
    check_const(names, ty, name, walk);
    walk.pass(b" = ");
    check_given(names, &wanted_of(ty), value, walk);
    walk.pass(b";\n");
}

fn check_const_call<'u>(
    names: &Names<'u>,
    name: &Word,
    ty: &'u CType,
    call: &'u CCall,
    walk: &mut Walk,
)
    ensures { Walks walk.old walk.new (form_text 0 (ConstCall name.now ty.now (call_of call.now))) (stmt_demands names.now.target Void false 0 (names_view names.now) walk.old.at (ConstCall name.now ty.now (call_of call.now))) }
{
    check_const(names, ty, name, walk);
    walk.pass(b" = ");
    check_call(names, &Some(wanted_of(ty)), call, walk);
    walk.pass(b";\n");
}

/// An initializer, where there is one.
fn check_first_value<'u>(
    names: &Names<'u>,
    base: &'u CBase,
    init: &'u Option<CInit>,
    walk: &mut Walk,
)
    ensures { Walks walk.old walk.new (first_value_text (option_map init_of init.now)) (first_value_demands names.now.target (names_view names.now) walk.old.at base.now (option_map init_of init.now)) }
{
    match init {
        None => {}
        Some(init) => {
            walk.pass(b" = ");
            check_init(names, &shape_of(names.structs, &base_of(base)), init, walk);
        }
    }
}

fn check_local<'u>(
    names: &Names<'u>,
    name: &Word,
    base: &'u CBase,
    init: &'u Option<CInit>,
    walk: &mut Walk,
)
    ensures { Walks walk.old walk.new (form_text 0 (Object name.now base.now (option_map init_of init.now))) (stmt_demands names.now.target Void false 0 (names_view names.now) walk.old.at (Object name.now base.now (option_map init_of init.now))) }
{
    check_object(names, base, name, walk);
    check_first_value(names, base, init, walk);
    walk.pass(b";\n");
}

/// The value that is assigned to a scalar.
fn check_assigned<'u>(
    names: &Names<'u>,
    scalar: &Option<CScalar>,
    value: &'u CExpr,
    walk: &mut Walk,
)
    ensures { Walks walk.old walk.new (expr_text (expr_of value.now)) (assigned_demands names.now.target (names_view names.now) walk.old.at scalar.now (expr_of value.now)) }
{
    match scalar {
        None => {
            check_expr(names, value, walk);
        }
        Some(scalar) => check_given(names, &Wanted::Scalar(*scalar), value, walk),
    }
}

fn check_assign<'u>(names: &Names<'u>, place: &'u CPlace, value: &'u CExpr, walk: &mut Walk)
    ensures { Walks walk.old walk.new (form_text 0 (Assign (place_of place.now) (expr_of value.now))) (stmt_demands names.now.target Void false 0 (names_view names.now) walk.old.at (Assign (place_of place.now) (expr_of value.now))) }
{
    let at = walk.at;
    let found = check_place(names, place, walk);
    walk.ask(at, CWhy::BadType, can_be_assigned(&found));
    walk.pass(b" = ");
    check_assigned(names, &assigned_scalar(&found), value, walk);
    walk.pass(b";\n");
}

fn is_void(wanted: &Wanted) -> bool
    ensures { result ≡ statements.is_void (type_view wanted.now) }
{
    match wanted {
        Wanted::Void => true,
        Wanted::Scalar(_) | Wanted::Pointer(_, _) => false,
    }
}

fn check_return<'u>(
    names: &Names<'u>,
    wanted: &Wanted<'u>,
    value: &'u Option<CExpr>,
    walk: &mut Walk,
)
    ensures { Walks walk.old walk.new (form_text 0 (Return (option_map expr_of value.now))) (stmt_demands names.now.target (type_view wanted.now) false 0 (names_view names.now) walk.old.at (Return (option_map expr_of value.now))) }
{
    match value {
        None => {
            walk.ask(walk.at, CWhy::BadType, is_void(wanted));
            walk.pass(b"return");
            walk.pass(b";\n");
        }
        Some(value) => {
            walk.ask(walk.at, CWhy::BadType, !is_void(wanted));
            walk.pass(b"return ");
            check_given(names, wanted, value, walk);
            walk.pass(b";\n");
        }
    }
}

/// `if` and its test, up to the lines of the first block.
fn check_test<'u>(names: &Names<'u>, test: &'u CExpr, walk: &mut Walk)
    ensures { Walks walk.old walk.new (codes "if (" ++ expr_text (expr_of test.now) ++ line (codes ") {")) (tested_demands names.now.target (names_view names.now) (behind walk.old.at (codes "if (")) (expr_of test.now)) }
{
    walk.pass(b"if (");
    check_tested(names, test, walk);
    walk.pass(b") {\n");
}

// ---- blocks

/// Statements, each on its lines within so many braces, in a function of a result.
#[cycle(stmts)]
pub fn check_stmts<'u>(
    names: &mut Names<'u>,
    wanted: &Wanted<'u>,
    in_loop: bool,
    braces: &Braces,
    stmts: &'u [CStmt],
    walk: &mut Walk,
) -> Result<(), Memory>
    ensures walks { OnOk result (Walks walk.old walk.new (stmts_text (depth braces.now) (stmts_of stmts.now)) (stmts_demands names.old.target (type_view wanted.now) in_loop (depth braces.now) (names_view names.old) walk.old.at (stmts_of stmts.now))) }
    ensures kept { OnOk result (Kept names.old names.new) }
{
    for stmt in stmts {
        check_stmt(names, wanted, in_loop, braces, stmt, walk)?;
    }
    Ok(())
}

/// The statements of a block behind its first brace, up to the last.
#[cycle(stmts)]
fn check_body<'u>(
    names: &mut Names<'u>,
    wanted: &Wanted<'u>,
    in_loop: bool,
    braces: &Braces,
    stmts: &'u [CStmt],
    walk: &mut Walk,
) -> Result<(), Memory>
    ensures walks { OnOk result (Walks walk.old walk.new (body_text (depth braces.now) (stmts_of stmts.now)) (stmts_demands names.old.target (type_view wanted.now) in_loop (depth braces.now + 1) (names_view names.old) walk.old.at (stmts_of stmts.now))) }
    ensures same { OnOk result (names.new ≡ names.old) }
{
    let outside = names.values.len();
    check_stmts(names, wanted, in_loop, &Braces::In(&*braces), stmts, walk)?;
    leave(names, outside);
    pass_indent(braces, walk);
    walk.pass(b"}");
    Ok(())
}

/// A statement with the spaces before it.
#[cycle(stmts)]
fn check_stmt<'u>(
    names: &mut Names<'u>,
    wanted: &Wanted<'u>,
    in_loop: bool,
    braces: &Braces,
    stmt: &'u CStmt,
    walk: &mut Walk,
) -> Result<(), Memory>
    ensures walks { OnOk result (Walks walk.old walk.new (stmt_text (depth braces.now) (stmt_of stmt.now)) (stmt_demands names.old.target (type_view wanted.now) in_loop (depth braces.now) (names_view names.old) (behind walk.old.at (indent (depth braces.now))) (stmt_of stmt.now))) }
    ensures view { OnOk result (names_view names.new ≡ after (stmt_of stmt.now) (names_view names.old)) }
    ensures kept { OnOk result (Kept names.old names.new) }
{
    pass_indent(braces, walk);
    check_form(names, wanted, in_loop, braces, stmt, walk)
}

#[cycle(stmts)]
fn check_form<'u>(
    names: &mut Names<'u>,
    wanted: &Wanted<'u>,
    in_loop: bool,
    braces: &Braces,
    stmt: &'u CStmt,
    walk: &mut Walk,
) -> Result<(), Memory>
    ensures walks { OnOk result (Walks walk.old walk.new (form_text (depth braces.now) (stmt_of stmt.now)) (stmt_demands names.old.target (type_view wanted.now) in_loop (depth braces.now) (names_view names.old) walk.old.at (stmt_of stmt.now))) }
    ensures view { OnOk result (names_view names.new ≡ after (stmt_of stmt.now) (names_view names.old)) }
    ensures kept { OnOk result (Kept names.old names.new) }
{
    match stmt {
        CStmt::Const(name, ty, value) => {
            check_const_value(&*names, name, ty, value, walk);
            declare_const(names, name, ty)
        }
        CStmt::ConstCall(name, ty, call) => {
            check_const_call(&*names, name, ty, call, walk);
            declare_const(names, name, ty)
        }
        CStmt::Object(name, base, init) => {
            check_local(&*names, name, base, init, walk);
            declare(names, name, Entity::Object(false, base_of(base)))
        }
        CStmt::Assign(place, value) => {
            check_assign(&*names, place, value, walk);
            Ok(())
        }
        CStmt::If(test, first, second) => {
            check_test(&*names, test, walk);
            check_body(names, wanted, in_loop, braces, first.as_slice(), walk)?;
            match second {
                None => {
                    walk.pass(b"\n");
                    Ok(())
                }
                Some(second) => {
                    walk.pass(b" else {\n");
                    check_body(names, wanted, in_loop, braces, second.as_slice(), walk)?;
                    walk.pass(b"\n");
                    Ok(())
                }
            }
        }
        CStmt::Forever(body) => {
            walk.pass(b"for (;;) {\n");
            check_body(names, wanted, true, braces, body.as_slice(), walk)?;
            walk.pass(b"\n");
            Ok(())
        }
        CStmt::Break => {
            walk.ask(walk.at, CWhy::BadType, in_loop);
            walk.pass(b"break;\n");
            Ok(())
        }
        CStmt::Return(value) => {
            check_return(&*names, wanted, value, walk);
            Ok(())
        }
        CStmt::Block(body) => {
            walk.pass(b"{\n");
            check_body(names, wanted, in_loop, braces, body.as_slice(), walk)?;
            walk.pass(b"\n");
            Ok(())
        }
        CStmt::Call(call) => {
            check_call(&*names, &None, call, walk);
            walk.pass(b";\n");
            Ok(())
        }
    }
}
