//! Expressions and places: their types, and what is asked of them.

ghost use Rattle.std.specs.Prelude.{◌≡◌, [], ◌++◌, ◌||◌, ◌&&◌, codes, decimal, is_some, if◌then◌else◌};
ghost use Rattle.std.specs.Option.{option_map, option_and_then};
ghost use Rattle.c_ast.specs.declared.CKind.TheVariants.{Arith as Computed};
ghost use Rattle.c_ast.specs.StaticTypes.{Arithmetic, of_cast};
ghost use Rattle.c_ast.specs.Syntax.{Number, Var};
ghost use Rattle.c_ast.specs.View.{expr_of, place_of};
ghost use Rattle.c_text.specs.TypeText.{base_text, type_text};
ghost use Rattle.c_text.specs.ExpressionText.{suffix_text, expr_text, place_text};
ghost use Rattle.c_text.specs.Rules.{behind, where_typed};
ghost use Rattle.c_text.specs.ExpressionRules as rules;
ghost use Rattle.c_text.specs.ExpressionRules.{base_demands, type_demands, is_known_base, is_known_type, expr_demands, place_demands, type_of};
ghost use Rattle.c_scopes.specs.Scope.{entity_found, names_view};
ghost use Rattle.c_scopes.specs.Shapes.{place_view};
ghost use Rattle.c_scopes.specs.Views.{value_view};
ghost use Rattle.c_scopes.specs.Walks.{Walks};

use c_ast::{Arith, CBase, CExpr, CKind, CPlace, CType, Suffix, Target};
use c_scopes::{
    Entity, Names, PlaceType, ValueType, Walk, binary_name, can_be_read, cast_is_allowed, constant,
    has_address, has_member, is_array, is_number, is_pointer, is_struct, of_address, of_binary,
    of_cast, of_choice, of_element, of_member, of_pointee, of_read, of_unary, scalar_name,
    star_name, suffix_name, unary_name, wanted_of,
};
use c_text::CWhy;
use itoa::Buffer;
use iv_words::Word;

// ---- types as they are written

/// Whether the tag of a base is known.
pub fn check_base(names: &Names, base: &CBase, walk: &mut Walk) -> bool
    ensures known { result ≡ is_known_base (names_view names.now) base.now }
    ensures walks { Walks walk.old walk.new (base_text base.now) (base_demands (names_view names.now) walk.old.at base.now) }
{
    match base {
        CBase::Scalar(scalar) => {
            walk.pass(scalar_name(*scalar));
            true
        }
        CBase::Struct(tag) => {
            walk.pass(b"struct ");
            let known = names.is_tag(tag);
            walk.ask(walk.at, CWhy::BadName, known);
            walk.pass(tag.as_slice());
            known
        }
    }
}

/// Whether the tag of a type is known.
pub fn check_type(names: &Names, ty: &CType, walk: &mut Walk) -> bool
    ensures known { result ≡ is_known_type (names_view names.now) ty.now }
    ensures walks { Walks walk.old walk.new (type_text ty.now) (type_demands (names_view names.now) walk.old.at ty.now) }
{
    match ty {
        CType::Void => {
            walk.pass(b"void");
            true
        }
        CType::Value(scalar) => {
            walk.pass(scalar_name(*scalar));
            true
        }
        CType::Pointer(constant, base) => {
            let known = check_base(names, base, walk);
            walk.pass(star_name(*constant));
            known
        }
    }
}

// ---- constants and names

fn pass_number(value: u64, suffix: Suffix, walk: &mut Walk)
    ensures { Walks walk.old walk.new (decimal value ++ suffix_text suffix) [] }
{
    let mut digits = Buffer::new();
    walk.pass(digits.format(value).as_bytes());
    walk.pass(suffix_name(suffix));
}

fn check_number<'u>(names: &Names<'u>, value: u64, suffix: Suffix, walk: &mut Walk) -> ValueType<'u>
    ensures ty { value_view result ≡ type_of names.now.target (names_view names.now) (Number value suffix) }
    ensures walks { Walks walk.old walk.new (expr_text (Number value suffix)) (expr_demands names.now.target (names_view names.now) walk.old.at (Number value suffix)) }
{
    let ty = constant(names.target, value, suffix);
    walk.ask(walk.at, CWhy::BadType, ty.is_some());
    pass_number(value, suffix, walk);
    number_of(ty)
}

fn number_of<'u>(ty: Option<Arith>) -> ValueType<'u>
    ensures { value_view result ≡ option_map (λ a. Arithmetic (Computed a)) ty }
{
    match ty {
        None => ValueType::Unknown,
        Some(arith) => ValueType::Number(CKind::Arith(arith)),
    }
}

/// Whether a name is declared as other than a function.
fn is_found(entity: &Option<Entity>) -> bool
    ensures { result ≡ is_some (entity_found entity.now) }
{
    match entity {
        None => false,
        Some(_) => true,
    }
}

fn either(first: bool, second: bool) -> bool
    ensures { result ≡ (first || second) }
{
    first || second
}

fn both(first: bool, second: bool) -> bool
    ensures { result ≡ (first && second) }
{
    first && second
}

fn check_name<'u>(names: &Names<'u>, name: &Word, walk: &mut Walk) -> PlaceType<'u>
    ensures ty { place_view result ≡ rules.place_of names.now.target (names_view names.now) (Var name.now) }
    ensures walks { Walks walk.old walk.new name.now (place_demands names.now.target (names_view names.now) walk.old.at (Var name.now)) }
{
    let entity = names.entity(name);
    let declared = is_found(&entity);
    let function = names.is_function(name);
    walk.ask(walk.at, CWhy::BadName, either(declared, function));
    walk.ask(walk.at, CWhy::BadType, !function);
    walk.ask(
        walk.at,
        CWhy::BadType,
        either(names.in_function(), !declared),
    );
    walk.pass(name.as_slice());
    names.place_of(&entity)
}

// ---- expressions and places

/// A cast up to what is cast: whether its tag is known.
fn check_cast(names: &Names, ty: &CType, walk: &mut Walk) -> bool
    ensures known { result ≡ is_known_type (names_view names.now) ty.now }
    ensures walks { Walks walk.old walk.new (codes "((" ++ type_text ty.now ++ codes ")") (type_demands (names_view names.now) (behind walk.old.at (codes "((")) ty.now) }
{
    walk.pass(b"((");
    let known = check_type(names, ty, walk);
    walk.pass(b")");
    known
}

/// The type of a cast of what has a type, where its tag is known.
fn of_known_cast<'u>(known: bool, ty: &'u CType, value: &ValueType<'u>) -> ValueType<'u>
    ensures { value_view result ≡ (if known then option_and_then (of_cast ty.now) (value_view value.now) else None) }
{
    if known {
        of_cast(&wanted_of(ty), value)
    } else {
        ValueType::Unknown
    }
}

/// Whether a place is the name of a function.
fn is_function_name(names: &Names, place: &CPlace) -> bool
    ensures { result ≡ rules.is_function_name (names_view names.now) (place_of place.now) }
{
    match place {
        CPlace::Var(name) => names.is_function(name),
        CPlace::At(_) | CPlace::Member(_, _) | CPlace::Element(_, _) => false,
    }
}

/// The type of an expression, and whether its rules are kept.
#[cycle(checks)]
pub fn check_expr<'u>(names: &Names<'u>, e: &'u CExpr, walk: &mut Walk) -> ValueType<'u>
    ensures ty { value_view result ≡ type_of names.now.target (names_view names.now) (expr_of e.now) }
    ensures walks { Walks walk.old walk.new (expr_text (expr_of e.now)) (expr_demands names.now.target (names_view names.now) walk.old.at (expr_of e.now)) }
{
    let at = walk.at;
    match e {
        CExpr::Number(value, suffix) => check_number(names, *value, *suffix, walk),
        CExpr::Read(place) => {
            let place = check_place(names, place, walk);
            walk.ask(at, CWhy::BadType, can_be_read(&place));
            of_read(&place)
        }
        CExpr::Address(place) => {
            walk.pass(b"(&");
            let found = check_place(names, place, walk);
            walk.pass(b")");
            let function = is_function_name(names, place);
            walk.ask(at, CWhy::BadType, both(!function, has_address(&found)));
            of_address(&found)
        }
        CExpr::Unary(op, e) => {
            walk.pass(b"(");
            walk.pass(unary_name(*op));
            let value = check_expr(names, e.get(), walk);
            walk.pass(b")");
            walk.ask(at, CWhy::BadType, is_number(&value));
            of_unary(names.target, *op, &value)
        }
        CExpr::Binary(op, left, right) => {
            walk.pass(b"(");
            let first = check_expr(names, left.get(), walk);
            walk.pass(b" ");
            walk.pass(binary_name(*op));
            walk.pass(b" ");
            let second = check_expr(names, right.get(), walk);
            walk.pass(b")");
            walk.ask(
                at,
                CWhy::BadType,
                both(is_number(&first), is_number(&second)),
            );
            of_binary(names.target, *op, &first, &second)
        }
        CExpr::Cast(ty, e) => {
            let known = check_cast(names, ty, walk);
            let value = check_expr(names, e.get(), walk);
            walk.pass(b")");
            walk.ask(at, CWhy::BadType, cast_is_allowed(&wanted_of(ty), &value));
            of_known_cast(known, ty, &value)
        }
        CExpr::Cond(test, first, second) => {
            walk.pass(b"(");
            let test = check_expr(names, test.get(), walk);
            walk.pass(b" ? ");
            let first = check_expr(names, first.get(), walk);
            walk.pass(b" : ");
            let second = check_expr(names, second.get(), walk);
            walk.pass(b")");
            walk.ask(at, CWhy::BadType, all_numbers(&test, &first, &second));
            of_choice(names.target, &test, &first, &second)
        }
    }
}

fn all_numbers(test: &ValueType, first: &ValueType, second: &ValueType) -> bool
    ensures { result ≡ (where_typed rules.is_number (value_view test.now) && where_typed rules.is_number (value_view first.now) && where_typed rules.is_number (value_view second.now)) }
{
    both(both(is_number(test), is_number(first)), is_number(second))
}

/// The type of a place, and whether its rules are kept.
#[cycle(checks)]
pub fn check_place<'u>(names: &Names<'u>, place: &'u CPlace, walk: &mut Walk) -> PlaceType<'u>
    ensures ty { place_view result ≡ rules.place_of names.now.target (names_view names.now) (place_of place.now) }
    ensures walks { Walks walk.old walk.new (place_text (place_of place.now)) (place_demands names.now.target (names_view names.now) walk.old.at (place_of place.now)) }
{
    let at = walk.at;
    match place {
        CPlace::Var(name) => check_name(names, name, walk),
        CPlace::At(pointer) => {
            walk.pass(b"(*");
            let value = check_expr(names, pointer.get(), walk);
            walk.pass(b")");
            walk.ask(at, CWhy::BadType, is_pointer(&value));
            of_pointee(names.structs, &value)
        }
        CPlace::Member(place, member) => {
            let found = check_place(names, place.get(), walk);
            walk.pass(b".");
            walk.ask(walk.at, CWhy::BadName, has_member(member, &found));
            walk.pass(member.as_slice());
            walk.ask(at, CWhy::BadType, is_struct(&found));
            of_member(member, &found)
        }
        CPlace::Element(place, index) => {
            let found = check_place(names, place.get(), walk);
            walk.pass(b"[");
            let index_at = walk.at;
            let value = check_expr(names, index.get(), walk);
            walk.ask(index_at, CWhy::BadType, is_number(&value));
            walk.pass(b"]");
            walk.ask(at, CWhy::BadType, is_array(&found));
            of_element(&found, &value)
        }
    }
}
