//! What is given where a type is wanted, and calls.

ghost use Rattle.std.specs.Prelude.{◌≡◌, ◌==◌, [], length, map, is_some};
ghost use Rattle.std.specs.Option.{option_map};
ghost use Rattle.c_ast.specs.View.{expr_of, call_of};
ghost use Rattle.c_text.specs.Rules.{where_both, where_typed};
ghost use Rattle.c_text.specs.TypeText.{listed};
ghost use Rattle.c_text.specs.ExpressionText.{expr_text, call_text};
ghost use Rattle.c_text.specs.ExpressionRules.{given_demands, tested_demands, args_demands, call_demands, params_of, result_may_be_given};
ghost use Rattle.c_expression_rules.specs.Given.{arg_demands};
ghost use Rattle.c_scopes.specs.Scope.{names_view, params_view, signature_found, signature_view};
ghost use Rattle.c_scopes.specs.Separated.{comma};
ghost use Rattle.c_scopes.specs.Views.{type_view};
ghost use Rattle.c_scopes.specs.Walks.{Walks};

use crate::expr::check_expr;
use c_ast::{CCall, CExpr, CKind};
use c_scopes::{Names, Params, Signature, ValueType, Walk, Wanted, is_number, may_be_given};
use c_text::CWhy;

/// An expression that is given where a type is wanted.
pub fn check_given<'u>(names: &Names<'u>, wanted: &Wanted<'u>, e: &'u CExpr, walk: &mut Walk)
    ensures { Walks walk.old walk.new (expr_text (expr_of e.now)) (given_demands names.now.target (names_view names.now) walk.old.at (type_view wanted.now) (expr_of e.now)) }
{
    let at = walk.at;
    let value = check_expr(names, e, walk);
    walk.ask(at, CWhy::BadType, may_be_given(&value, wanted));
}

/// An expression that `if` tests.
pub fn check_tested<'u>(names: &Names<'u>, e: &'u CExpr, walk: &mut Walk)
    ensures { Walks walk.old walk.new (expr_text (expr_of e.now)) (tested_demands names.now.target (names_view names.now) walk.old.at (expr_of e.now)) }
{
    let at = walk.at;
    let value = check_expr(names, e, walk);
    walk.ask(at, CWhy::BadType, is_number(&value));
}

/// A comma and a space behind others.
pub fn pass_comma(more: bool, walk: &mut Walk)
    ensures { Walks walk.old walk.new (comma more) [] }
{
    let piece: &[u8] = if more { b", " } else { b"" };
    walk.pass(piece);
}

// ---- arguments

fn check_arg<'u>(names: &Names<'u>, wanted: &Option<Wanted<'u>>, e: &'u CExpr, walk: &mut Walk)
    ensures { Walks walk.old walk.new (expr_text (expr_of e.now)) (arg_demands names.now.target (names_view names.now) walk.old.at (option_map type_view wanted.now) (expr_of e.now)) }
{
    match wanted {
        None => {
            check_expr(names, e, walk);
        }
        Some(wanted) => check_given(names, wanted, e, walk),
    }
}

/// Arguments for these parameters, as far as there are such.
fn check_args<'u>(names: &Names<'u>, params: Params<'u>, args: &'u [CExpr], walk: &mut Walk)
    ensures { Walks walk.old walk.new (listed (map expr_text (map expr_of args.now))) (args_demands names.now.target (names_view names.now) walk.old.at (params_view params.entry) (map expr_of args.now)) }
{
    let mut params = params;
    let mut more = false;
    for arg in args {
        pass_comma(more, walk);
        check_arg(names, &params.first(), arg, walk);
        params = params.rest();
        more = true;
    }
}

// ---- calls

/// The parameters of a function, where there is one.
fn params_called<'u>(names: &Names<'u>, called: &Option<Signature<'u>>) -> Params<'u>
    ensures { params_view result ≡ params_of names.now.target (names_view names.now) (signature_found called.now) }
{
    match called {
        None => Params::None,
        Some(called) => called.types(),
    }
}

fn is_called(called: &Option<Signature>) -> bool
    ensures { result ≡ is_some (signature_found called.now) }
{
    match called {
        None => false,
        Some(_) => true,
    }
}

/// Whether a function has so many parameters, where there is one.
fn is_counted(called: &Option<Signature>, args: usize) -> bool
    ensures { result ≡ where_typed (λ s. length s.params == args) (signature_found called.now) }
{
    match called {
        None => true,
        Some(called) => called.params() == args,
    }
}

/// Whether the result of a function may be given where a type is wanted.
fn result_is_given(names: &Names, wanted: &Wanted, called: &Signature) -> bool
    ensures { result ≡ result_may_be_given names.now.target (names_view names.now) (type_view wanted.now) (signature_view called.now).result }
{
    match called.result() {
        Wanted::Void => false,
        Wanted::Scalar(scalar) => may_be_given(&ValueType::Number(CKind::Scalar(scalar)), wanted),
        Wanted::Pointer(constant, base) => may_be_given(
            &ValueType::Pointer(constant, base),
            wanted,
        ),
    }
}

/// The same where there is such a function, and a result is wanted.
fn is_result_wanted(names: &Names, wanted: &Option<Wanted>, called: &Option<Signature>) -> bool
    ensures { result ≡ where_both (result_may_be_given names.now.target (names_view names.now)) (option_map type_view wanted.now) (option_map (λ s. s.result) (signature_found called.now)) }
{
    match wanted {
        None => true,
        Some(wanted) => match called {
            None => true,
            Some(called) => result_is_given(names, wanted, called),
        },
    }
}

/// A call whose result, if one is wanted, is of the type.
pub fn check_call<'u>(
    names: &Names<'u>,
    wanted: &Option<Wanted<'u>>,
    call: &'u CCall,
    walk: &mut Walk,
)
    ensures { Walks walk.old walk.new (call_text (call_of call.now)) (call_demands names.now.target (names_view names.now) walk.old.at (option_map type_view wanted.now) (call_of call.now)) }
{
    let called = names.called(&call.name);
    walk.ask(walk.at, CWhy::BadName, is_called(&called));
    walk.ask(walk.at, CWhy::BadType, is_counted(&called, call.args.len()));
    walk.ask(
        walk.at,
        CWhy::BadType,
        is_result_wanted(names, wanted, &called),
    );
    walk.pass(call.name.as_slice());
    walk.pass(b"(");
    check_args(
        names,
        params_called(names, &called),
        call.args.as_slice(),
        walk,
    );
    walk.pass(b")");
}
