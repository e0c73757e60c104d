//! The cores of statements and blocks. The checks get their numbers in the order of the text.

ghost use Rattle.std.specs.Prelude.{◌≡◌, IfOk, OnOk};
ghost use Rattle.area_types.specs.Syntax.{Truth};
ghost use Rattle.core_tree.specs.Syntax as core_syntax;
ghost use Rattle.core_tree.specs.View as tree;
ghost use Rattle.ivory_tree.specs.Syntax as syntax;
ghost use Rattle.ivory_tree.specs.View.{block_of, expr_of, stmt_of, stmts_of};
ghost use Rattle.typing_rules.specs.Environments as typing;
ghost use Rattle.typing_rules.specs.ExpressionCores.{core_of};
ghost use Rattle.typing_rules.specs.StatementCores as cores;
ghost use Rattle.typing_rules.specs.Statements as statements;
ghost use Rattle.check_numbers.specs.Numbered.{expr_from};
ghost use Rattle.check_numbers.specs.NumberedParts as numbers;
ghost use Rattle.core_maker.specs.Places.{env_of, Agrees};
ghost use Rattle.statement_maker.specs.Parts as parts;
ghost use Rattle.statement_maker.specs.Places.{Stays, with_locals};

use crate::scope::{add_name, index_type, leave, next_number, what_is_around};
use crate::{forms, nodes};
use alloc_effects::{Allowed, Narrowing, in_loop, narrow};
use core_maker::{Place, expression};
use core_tree::{CoreExpr, CoreStmt};
use iv_words::{Memory, Name, Seq};
use ivory_tree::{Block, Expr, Stmt, StmtKind};
use rule_checker::TypeRef;
use std::alloc::Global;

/// The test and the first branch of an `if`.
#[derive(Drop)]
struct Branch {
    test: CoreExpr,
    first: Seq<CoreStmt>,
}

/// The cores of statements, one after another.
#[cycle(stmts)]
fn statements(
    alloc: Global,
    place: &mut Place,
    stmts: &[Stmt],
    next: &mut u32,
) -> Result<Seq<CoreStmt>, Memory>
    requires { Agrees place.old }
    ensures core { IfOk result (λ cs. tree.stmts_of cs ≡ numbers.stmts_from next.old (cores.stmts_core (env_of place.old) (stmts_of stmts.now))) }
    ensures after { OnOk result (next.new ≡ numbers.stmts_after next.old (cores.stmts_core (env_of place.old) (stmts_of stmts.now))) }
    ensures env { OnOk result (env_of place.new ≡ cores.stmts_last (env_of place.old) (stmts_of stmts.now)) }
    ensures stays { OnOk result (Stays place.old place.new) }
{
    let mut made = Seq::new(alloc);
    for stmt in stmts {
        let core = statement(alloc, place, stmt, next)?;
        made.push(core)?;
    }
    Ok(made)
}

/// The core of a statement.
#[cycle(stmts)]
#[tactic(auto, using(crate::proofs::Scopes::stays, crate::proofs::Scopes::stays_both))]
fn statement(
    alloc: Global,
    place: &mut Place,
    stmt: &Stmt,
    next: &mut u32,
) -> Result<CoreStmt, Memory>
    requires { Agrees place.old }
    ensures core { IfOk result (λ c. tree.stmt_of c ≡ numbers.stmt_from next.old (cores.stmt_core (env_of place.old) (stmt_of stmt.now))) }
    ensures after { OnOk result (next.new ≡ numbers.stmt_after next.old (cores.stmt_core (env_of place.old) (stmt_of stmt.now))) }
    ensures env { OnOk result (env_of place.new ≡ cores.stmt_after (env_of place.old) (stmt_of stmt.now)) }
    ensures stays { OnOk result (Stays place.old place.new) }
{
    match &stmt.kind {
        StmtKind::Let(name, value) => forms::let_value(alloc, place, name, value, next),
        StmtKind::LetCall(name, call) => forms::let_call(alloc, place, name, call, next),
        StmtKind::Alloc(name, area, first) => {
            forms::alloc_area(alloc, place, name, area, first, next)
        }
        StmtKind::Store(target, value) => forms::store(alloc, &*place, target, value, next),
        StmtKind::Copy(target, source) => forms::copy(alloc, &*place, target, source, next),
        StmtKind::Call(call) => forms::call_alone(alloc, &*place, call, next),
        StmtKind::If(test, first, second) => {
            let branch = first_branch(alloc, place, first, test, next)?;
            match second {
                Some(second) => else_branch(alloc, place, second, branch, next),
                None => Ok(nodes::if_only(branch.test, branch.first)),
            }
        }
        StmtKind::Map(name, length, body) => map(alloc, place, name, *length, body, next),
        StmtKind::Upto(name, length, last, body) => {
            upto(alloc, place, name, *length, body, last, next)
        }
        StmtKind::Downto(name, length, first, body) => {
            downto(alloc, place, name, *length, body, first, next)
        }
        StmtKind::Forever(body) => forever(alloc, place, body, next),
        StmtKind::Break => Ok(nodes::break_out()),
        StmtKind::Return(value) => forms::give_back(alloc, &*place, value, next),
        StmtKind::Assert(cond) => forms::assertion(alloc, &*place, stmt.span, cond, next),
        StmtKind::NoAlloc(body) => no_alloc(alloc, place, body, next),
        StmtKind::NoBreak(body) => no_break(alloc, place, body, next),
        StmtKind::NoReturn(body) => no_return(alloc, place, body, next),
    }
}

/// The test and the first branch of an `if`.
#[cycle(stmts)]
fn first_branch(
    alloc: Global,
    place: &mut Place,
    first: &Block,
    test: &Expr,
    next: &mut u32,
) -> Result<Branch, Memory>
    requires { Agrees place.old }
    ensures test { IfOk result (λ b. tree.expr_of b.test ≡ expr_from next.old (core_of (env_of place.old) Truth (expr_of test.now))) }
    ensures first { IfOk result (λ b. tree.stmts_of b.first ≡ numbers.stmts_from (parts.test_after next.old (env_of place.old) (expr_of test.now)) (cores.block_core (env_of place.old) (block_of first.now))) }
    ensures after { OnOk result (next.new ≡ numbers.stmts_after (parts.test_after next.old (env_of place.old) (expr_of test.now)) (cores.block_core (env_of place.old) (block_of first.now))) }
    ensures env { OnOk result (env_of place.new ≡ parts.behind_block (env_of place.old) (env_of place.old) (block_of first.now)) }
    ensures stays { OnOk result (Stays place.old place.new) }
{
    let test = expression(alloc, &*place, TypeRef::Bool, test, next)?;
    let first = block(alloc, place, first, next)?;
    Ok(Branch { test, first })
}

/// `if` with `else`, whose first branch is this.
#[cycle(stmts)]
fn else_branch(
    alloc: Global,
    place: &mut Place,
    second: &Block,
    branch: Branch,
    next: &mut u32,
) -> Result<CoreStmt, Memory>
    requires { Agrees place.old }
    ensures core { IfOk result (λ c. tree.stmt_of c ≡ core_syntax.IfElse (tree.expr_of branch.test) (tree.stmts_of branch.first) (numbers.stmts_from next.old (cores.block_core (env_of place.old) (block_of second.now)))) }
    ensures after { OnOk result (next.new ≡ numbers.stmts_after next.old (cores.block_core (env_of place.old) (block_of second.now))) }
    ensures env { OnOk result (env_of place.new ≡ parts.behind_block (env_of place.old) (env_of place.old) (block_of second.now)) }
    ensures stays { OnOk result (Stays place.old place.new) }
{
    let second = block(alloc, place, second, next)?;
    Ok(nodes::if_else(branch.test, branch.first, second))
}

/// A loop through all indices.
#[cycle(stmts)]
fn map(
    alloc: Global,
    place: &mut Place,
    name: &Name,
    length: u64,
    body: &Block,
    next: &mut u32,
) -> Result<CoreStmt, Memory>
    requires { Agrees place.old }
    ensures core { IfOk result (λ c. tree.stmt_of c ≡ numbers.stmt_from next.old (parts.form_core (env_of place.old) (λ s. syntax.Map s name.now length (block_of body.now)))) }
    ensures after { OnOk result (next.new ≡ numbers.stmt_after next.old (parts.form_core (env_of place.old) (λ s. syntax.Map s name.now length (block_of body.now)))) }
    ensures env { OnOk result (env_of place.new ≡ parts.form_behind (env_of place.old) (λ s. syntax.Map s name.now length (block_of body.now))) }
    ensures stays { OnOk result (Stays place.old place.new) }
{
    let number = next_number(&*place)?;
    let length = forms::index_length(length);
    let body = loop_body(alloc, place, name, length, body, next)?;
    Ok(nodes::map(number, length, body))
}

/// A loop that counts up to a bound.
#[cycle(stmts)]
fn upto(
    alloc: Global,
    place: &mut Place,
    name: &Name,
    length: u64,
    body: &Block,
    last: &Expr,
    next: &mut u32,
) -> Result<CoreStmt, Memory>
    requires { Agrees place.old }
    ensures core { IfOk result (λ c. tree.stmt_of c ≡ numbers.stmt_from next.old (parts.form_core (env_of place.old) (λ s. syntax.Upto s name.now length (expr_of last.now) (block_of body.now)))) }
    ensures after { OnOk result (next.new ≡ numbers.stmt_after next.old (parts.form_core (env_of place.old) (λ s. syntax.Upto s name.now length (expr_of last.now) (block_of body.now)))) }
    ensures env { OnOk result (env_of place.new ≡ parts.form_behind (env_of place.old) (λ s. syntax.Upto s name.now length (expr_of last.now) (block_of body.now))) }
    ensures stays { OnOk result (Stays place.old place.new) }
{
    let number = next_number(&*place)?;
    let length = forms::index_length(length);
    let last = expression(alloc, &*place, TypeRef::Ix(length), last, next)?;
    let body = loop_body(alloc, place, name, length, body, next)?;
    Ok(nodes::upto(number, length, last, body))
}

/// A loop that counts down from a bound.
#[cycle(stmts)]
fn downto(
    alloc: Global,
    place: &mut Place,
    name: &Name,
    length: u64,
    body: &Block,
    first: &Expr,
    next: &mut u32,
) -> Result<CoreStmt, Memory>
    requires { Agrees place.old }
    ensures core { IfOk result (λ c. tree.stmt_of c ≡ numbers.stmt_from next.old (parts.form_core (env_of place.old) (λ s. syntax.Downto s name.now length (expr_of first.now) (block_of body.now)))) }
    ensures after { OnOk result (next.new ≡ numbers.stmt_after next.old (parts.form_core (env_of place.old) (λ s. syntax.Downto s name.now length (expr_of first.now) (block_of body.now)))) }
    ensures env { OnOk result (env_of place.new ≡ parts.form_behind (env_of place.old) (λ s. syntax.Downto s name.now length (expr_of first.now) (block_of body.now))) }
    ensures stays { OnOk result (Stays place.old place.new) }
{
    let number = next_number(&*place)?;
    let length = forms::index_length(length);
    let first = expression(alloc, &*place, TypeRef::Ix(length), first, next)?;
    let body = loop_body(alloc, place, name, length, body, next)?;
    Ok(nodes::downto(number, length, first, body))
}

/// A loop without an end of its own.
#[cycle(stmts)]
fn forever(
    alloc: Global,
    place: &mut Place,
    body: &Block,
    next: &mut u32,
) -> Result<CoreStmt, Memory>
    requires { Agrees place.old }
    ensures core { IfOk result (λ c. tree.stmt_of c ≡ numbers.stmt_from next.old (parts.form_core (env_of place.old) (λ s. syntax.Forever s (block_of body.now)))) }
    ensures after { OnOk result (next.new ≡ numbers.stmt_after next.old (parts.form_core (env_of place.old) (λ s. syntax.Forever s (block_of body.now)))) }
    ensures env { OnOk result (env_of place.new ≡ parts.form_behind (env_of place.old) (λ s. syntax.Forever s (block_of body.now))) }
    ensures stays { OnOk result (Stays place.old place.new) }
{
    let allowed = in_loop(place.context.allowed);
    Ok(nodes::forever(inner(alloc, place, allowed, body, next)?))
}

/// A block without `alloc`.
#[cycle(stmts)]
fn no_alloc(
    alloc: Global,
    place: &mut Place,
    body: &Block,
    next: &mut u32,
) -> Result<CoreStmt, Memory>
    requires { Agrees place.old }
    ensures core { IfOk result (λ c. tree.stmt_of c ≡ numbers.stmt_from next.old (parts.form_core (env_of place.old) (λ s. syntax.NoAlloc s (block_of body.now)))) }
    ensures after { OnOk result (next.new ≡ numbers.stmt_after next.old (parts.form_core (env_of place.old) (λ s. syntax.NoAlloc s (block_of body.now)))) }
    ensures env { OnOk result (env_of place.new ≡ parts.form_behind (env_of place.old) (λ s. syntax.NoAlloc s (block_of body.now))) }
    ensures stays { OnOk result (Stays place.old place.new) }
{
    let allowed = narrow(place.context.allowed, Narrowing::NoAlloc);
    Ok(nodes::no_alloc(inner(alloc, place, allowed, body, next)?))
}

/// A block without `break`.
#[cycle(stmts)]
fn no_break(
    alloc: Global,
    place: &mut Place,
    body: &Block,
    next: &mut u32,
) -> Result<CoreStmt, Memory>
    requires { Agrees place.old }
    ensures core { IfOk result (λ c. tree.stmt_of c ≡ numbers.stmt_from next.old (parts.form_core (env_of place.old) (λ s. syntax.NoBreak s (block_of body.now)))) }
    ensures after { OnOk result (next.new ≡ numbers.stmt_after next.old (parts.form_core (env_of place.old) (λ s. syntax.NoBreak s (block_of body.now)))) }
    ensures env { OnOk result (env_of place.new ≡ parts.form_behind (env_of place.old) (λ s. syntax.NoBreak s (block_of body.now))) }
    ensures stays { OnOk result (Stays place.old place.new) }
{
    let allowed = narrow(place.context.allowed, Narrowing::NoBreak);
    Ok(nodes::no_break(inner(alloc, place, allowed, body, next)?))
}

/// A block without `return`.
#[cycle(stmts)]
fn no_return(
    alloc: Global,
    place: &mut Place,
    body: &Block,
    next: &mut u32,
) -> Result<CoreStmt, Memory>
    requires { Agrees place.old }
    ensures core { IfOk result (λ c. tree.stmt_of c ≡ numbers.stmt_from next.old (parts.form_core (env_of place.old) (λ s. syntax.NoReturn s (block_of body.now)))) }
    ensures after { OnOk result (next.new ≡ numbers.stmt_after next.old (parts.form_core (env_of place.old) (λ s. syntax.NoReturn s (block_of body.now)))) }
    ensures env { OnOk result (env_of place.new ≡ parts.form_behind (env_of place.old) (λ s. syntax.NoReturn s (block_of body.now))) }
    ensures stays { OnOk result (Stays place.old place.new) }
{
    let allowed = narrow(place.context.allowed, Narrowing::NoReturn);
    Ok(nodes::no_return(inner(alloc, place, allowed, body, next)?))
}

/// The body of a loop, in which the name is an index below the length.
#[cycle(stmts)]
fn loop_body(
    alloc: Global,
    place: &mut Place,
    name: &Name,
    length: u32,
    body: &Block,
    next: &mut u32,
) -> Result<Seq<CoreStmt>, Memory>
    requires { Agrees place.old }
    ensures core { IfOk result (λ cs. tree.stmts_of cs ≡ numbers.stmts_from next.old (cores.block_core (statements.in_counted (env_of place.old) name.now length) (block_of body.now))) }
    ensures after { OnOk result (next.new ≡ numbers.stmts_after next.old (cores.block_core (statements.in_counted (env_of place.old) name.now length) (block_of body.now))) }
    ensures env { OnOk result (env_of place.new ≡ parts.behind_block (env_of place.old) (statements.in_counted (env_of place.old) name.now length) (block_of body.now)) }
    ensures stays { OnOk result (Stays place.old place.new) }
{
    let around = what_is_around(&*place);
    add_name(alloc, place, &name.text, index_type(length))?;
    let allowed = in_loop(around.allowed);
    let made = inner(alloc, place, allowed, body, next)?;
    leave(place, around);
    Ok(made)
}

/// A block in which this is allowed; what it names is not in scope behind it.
#[cycle(stmts)]
fn inner(
    alloc: Global,
    place: &mut Place,
    allowed: Allowed,
    block: &Block,
    next: &mut u32,
) -> Result<Seq<CoreStmt>, Memory>
    requires { Agrees place.old }
    ensures core { IfOk result (λ cs. tree.stmts_of cs ≡ numbers.stmts_from next.old (cores.block_core (parts.allowing (env_of place.old) allowed) (block_of block.now))) }
    ensures after { OnOk result (next.new ≡ numbers.stmts_after next.old (cores.block_core (parts.allowing (env_of place.old) allowed) (block_of block.now))) }
    ensures env { OnOk result (env_of place.new ≡ parts.behind_block (env_of place.old) (parts.allowing (env_of place.old) allowed) (block_of block.now)) }
    ensures stays { OnOk result (Stays place.old place.new) }
    ensures same { OnOk result (place.new ≡ with_locals place.old place.new.locals) }
{
    let around = what_is_around(&*place);
    place.context.allowed = allowed;
    let made = statements(alloc, place, block.stmts.as_slice(), next)?;
    leave(place, around);
    Ok(made)
}

/// The core of a block, with its checks numbered from `next` on. Behind it the place is as it was, with the locals of the block.
#[cycle(stmts)]
pub fn block(
    alloc: Global,
    place: &mut Place,
    block: &Block,
    next: &mut u32,
) -> Result<Seq<CoreStmt>, Memory>
    requires { Agrees place.old }
    ensures core { IfOk result (λ cs. tree.stmts_of cs ≡ numbers.stmts_from next.old (cores.block_core (env_of place.old) (block_of block.now))) }
    ensures after { OnOk result (next.new ≡ numbers.stmts_after next.old (cores.block_core (env_of place.old) (block_of block.now))) }
    ensures env { OnOk result (env_of place.new ≡ typing.after_block (env_of place.old) (cores.block_last (env_of place.old) (block_of block.now))) }
    ensures stays { OnOk result (Stays place.old place.new) }
    ensures same { OnOk result (place.new ≡ record place.old { locals = place.new.locals }) }
{
    let allowed = place.context.allowed;
    inner(alloc, place, allowed, block, next)
}
