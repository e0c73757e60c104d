//! Initializers, of the type of what they begin.

ghost use Rattle.std.specs.Prelude.{◌++◌, ◌≡◌, [], false};
ghost use Rattle.c_ast.specs.View.{expr_of, init_of, inits_of};
ghost use Rattle.c_text.specs.Rules.{BracesMatch, InitializersFit, ask};
ghost use Rattle.c_text.specs.TypeText.{listed};
ghost use Rattle.c_text.specs.ExpressionText.{expr_text, init_text, init_texts};
ghost use Rattle.c_text.specs.ExpressionRules.{expr_demands, init_demands, loose_demands};
ghost use Rattle.c_ast.specs.Syntax.{One};
ghost use Rattle.c_scopes.specs.Scope.{names_view};
ghost use Rattle.c_scopes.specs.Shapes.{shape_view};
ghost use Rattle.c_expression_rules.specs.Slots.{slots_view, slots_of_tree, rest_slots, first_slot, slot_view, slot_demands, brace_demands, inits_demands};
ghost use Rattle.c_scopes.specs.Walks.{Walks};

use crate::call::{check_given, pass_comma};
use crate::expr::check_expr;
use c_ast::{CExpr, CInit, CMember};
use c_scopes::{
    Base, Names, Shape, Structs, Walk, Wanted, base_of, members_of, shape_of, times_shape,
};
use c_text::CWhy;

/// What is left to be initialized, from the first on: so many elements, members, or nothing that could be.
#[derive(Clone, Copy, Drop)]
pub enum Slots<'u> {
    Elements(u32, Base<'u>, Structs<'u>),
    Members(&'u [CMember], Structs<'u>),
    Nothing,
}

/// What the next initializer is for.
#[derive(Clone, Copy, Drop)]
pub enum Slot<'u> {
    Fits(Shape<'u>),
    TooMany,
    Nothing,
}

fn slots_of<'u>(shape: &Shape<'u>) -> Slots<'u>
    ensures { slots_view result ≡ slots_of_tree (shape_view shape.now) }
{
    match shape {
        Shape::Scalar(_) => Slots::Nothing,
        Shape::Array(n, base, structs) => Slots::Elements(*n, *base, *structs),
        Shape::Struct(_, members, structs) => Slots::Members(members_of(*members), *structs),
    }
}

fn first_member<'u>(members: &'u [CMember], structs: Structs<'u>) -> Slot<'u>
    ensures { slot_view result ≡ first_slot (slots_view (Slots.Members members.entry structs.entry)) }
{
    match members.split_first() {
        None => Slot::TooMany,
        Some((first, _)) => Slot::Fits(times_shape(first.length, structs, &base_of(&first.base))),
    }
}

fn rest_members<'u>(members: &'u [CMember], structs: Structs<'u>) -> Slots<'u>
    ensures { slots_view result ≡ rest_slots (slots_view (Slots.Members members.entry structs.entry)) }
{
    match members.split_first() {
        None => Slots::Nothing,
        Some((_, rest)) => Slots::Members(rest, structs),
    }
}

impl<'u> Slots<'u> {
    fn first(&self) -> Slot<'u>
        ensures { slot_view result ≡ first_slot (slots_view self.now) }
    {
        match self {
            Slots::Elements(n, base, structs) => first_element(*n, base, *structs),
            Slots::Members(members, structs) => first_member(members, *structs),
            Slots::Nothing => Slot::Nothing,
        }
    }

    fn rest(&self) -> Slots<'u>
        ensures { slots_view result ≡ rest_slots (slots_view self.now) }
    {
        match self {
            Slots::Elements(n, base, structs) => rest_elements(*n, base, *structs),
            Slots::Members(members, structs) => rest_members(members, *structs),
            Slots::Nothing => Slots::Nothing,
        }
    }
}

fn first_element<'u>(n: u32, base: &Base<'u>, structs: Structs<'u>) -> Slot<'u>
    ensures { slot_view result ≡ first_slot (slots_view (Slots.Elements n base.now structs.entry)) }
{
    if n == 0 {
        Slot::TooMany
    } else {
        Slot::Fits(shape_of(structs, base))
    }
}

fn rest_elements<'u>(n: u32, base: &Base<'u>, structs: Structs<'u>) -> Slots<'u>
    ensures { slots_view result ≡ rest_slots (slots_view (Slots.Elements n base.now structs.entry)) }
{
    if n == 0 {
        Slots::Nothing
    } else {
        Slots::Elements(n - 1, *base, structs)
    }
}

// ---- what is only gone past

fn pass_expr<'u>(names: &Names<'u>, e: &'u CExpr, walk: &mut Walk)
    ensures { Walks walk.old walk.new (expr_text (expr_of e.now)) [] }
{
    let fault = walk.fault;
    check_expr(names, e, walk);
    walk.fault = fault;
}

#[cycle(passes)]
fn pass_init<'u>(names: &Names<'u>, init: &'u CInit, walk: &mut Walk)
    ensures { Walks walk.old walk.new (init_text (init_of init.now)) [] }
{
    match init {
        CInit::One(e) => pass_expr(names, e, walk),
        CInit::Zero => walk.pass(b"{0}"),
        CInit::Many(inits) => {
            walk.pass(b"{");
            pass_inits(names, inits.as_slice(), walk);
            walk.pass(b"}");
        }
    }
}

#[cycle(passes)]
fn pass_inits<'u>(names: &Names<'u>, inits: &'u [CInit], walk: &mut Walk)
    ensures { Walks walk.old walk.new (listed (init_texts (inits_of inits.now))) [] }
{
    let mut more = false;
    for init in inits {
        pass_comma(more, walk);
        pass_init(names, init, walk);
        more = true;
    }
}

// ---- one too many, and a wrongly braced one

fn check_loosely<'u>(names: &Names<'u>, init: &'u CInit, walk: &mut Walk)
    ensures { Walks walk.old walk.new (init_text (init_of init.now)) (loose_demands names.now.target (names_view names.now) walk.old.at (init_of init.now)) }
{
    match init {
        CInit::One(e) => {
            check_expr(names, e, walk);
        }
        CInit::Zero => walk.pass(b"{0}"),
        CInit::Many(_) => pass_init(names, init, walk),
    }
}

fn check_too_many<'u>(names: &Names<'u>, init: &'u CInit, walk: &mut Walk)
    ensures { Walks walk.old walk.new (init_text (init_of init.now)) (ask walk.old.at InitializersFit false ++ loose_demands names.now.target (names_view names.now) walk.old.at (init_of init.now)) }
{
    let at = walk.at;
    check_loosely(names, init, walk);
    walk.ask(at, CWhy::BadType, false);
}

fn check_unbraced<'u>(names: &Names<'u>, shape: &Shape<'u>, e: &'u CExpr, walk: &mut Walk)
    ensures { Walks walk.old walk.new (expr_text (expr_of e.now)) (init_demands names.now.target (names_view names.now) walk.old.at (shape_view shape.now) (One (expr_of e.now))) }
{
    match shape {
        Shape::Scalar(scalar) => check_given(names, &Wanted::Scalar(*scalar), e, walk),
        Shape::Array(_, _, _) | Shape::Struct(_, _, _) => check_braceless(names, e, walk),
    }
}

fn check_braceless<'u>(names: &Names<'u>, e: &'u CExpr, walk: &mut Walk)
    ensures { Walks walk.old walk.new (expr_text (expr_of e.now)) (ask walk.old.at BracesMatch false ++ expr_demands names.now.target (names_view names.now) walk.old.at (expr_of e.now)) }
{
    let at = walk.at;
    check_expr(names, e, walk);
    walk.ask(at, CWhy::BadType, false);
}

/// `{0}`, or the first brace of a list.
fn check_brace(shape: &Shape, piece: &[u8], walk: &mut Walk)
    ensures { Walks walk.old walk.new piece.now (brace_demands walk.old.at (shape_view shape.now)) }
{
    match shape {
        Shape::Scalar(_) => {
            walk.ask(walk.at, CWhy::BadType, false);
            walk.pass(piece);
        }
        Shape::Array(_, _, _) | Shape::Struct(_, _, _) => walk.pass(piece),
    }
}

// ---- initializers

#[cycle(inits)]
pub fn check_init<'u>(names: &Names<'u>, shape: &Shape<'u>, init: &'u CInit, walk: &mut Walk)
    ensures { Walks walk.old walk.new (init_text (init_of init.now)) (init_demands names.now.target (names_view names.now) walk.old.at (shape_view shape.now) (init_of init.now)) }
{
    match init {
        CInit::One(e) => check_unbraced(names, shape, e, walk),
        CInit::Zero => check_brace(shape, b"{0}", walk),
        CInit::Many(inits) => {
            check_brace(shape, b"{", walk);
            check_inits(names, slots_of(shape), inits.as_slice(), walk);
            walk.pass(b"}");
        }
    }
}

#[cycle(inits)]
fn check_inits<'u>(names: &Names<'u>, slots: Slots<'u>, inits: &'u [CInit], walk: &mut Walk)
    ensures { Walks walk.old walk.new (listed (init_texts (inits_of inits.now))) (inits_demands names.now.target (names_view names.now) (slots_view slots.entry) walk.old.at (inits_of inits.now)) }
{
    let mut slots = slots;
    let mut more = false;
    for init in inits {
        pass_comma(more, walk);
        check_slot(names, &slots.first(), init, walk);
        slots = slots.rest();
        more = true;
    }
}

#[cycle(inits)]
fn check_slot<'u>(names: &Names<'u>, slot: &Slot<'u>, init: &'u CInit, walk: &mut Walk)
    ensures { Walks walk.old walk.new (init_text (init_of init.now)) (slot_demands names.now.target (names_view names.now) walk.old.at (slot_view slot.now) (init_of init.now)) }
{
    match slot {
        Slot::Fits(shape) => check_init(names, shape, init, walk),
        Slot::TooMany => check_too_many(names, init, walk),
        Slot::Nothing => pass_init(names, init, walk),
    }
}
