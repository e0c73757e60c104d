//! Initializers, and the arguments of calls.

ghost use Rattle.std.specs.Prelude.{◌≡◌, ◌∷◌};
ghost use Rattle.reading.specs.Reader.{mapped};
ghost use Rattle.c_ast.specs.View.{expr_of, init_of};
ghost use Rattle.grammars.specs.Grammar.{after, repeat, separated};
ghost use Rattle.c_grammar.specs.Pieces.{pieces};
ghost use Rattle.c_grammar.specs.Symbols as symbols;
ghost use Rattle.c_grammar.specs.ExpressionRules as rules;
ghost use Rattle.c_lexemes.specs.Gives.{Gives};
ghost use Rattle.c_lexemes.specs.Levels.{reads_at};
ghost use Rattle.c_expression_parser.specs.Views.{exprs_of, inits_of};

use crate::exprs::expression;
use c_ast::{CExpr, CInit, Suffix};
use c_lexemes::{COMMA, Fault, close, comma, goes_on, is_expression, kind, open};
use iv_words::Seq;
use std::alloc::Global;

// ---- arguments

fn next_argument(alloc: Global, depth: u16, bytes: &[u8]) -> Result<(CExpr, &[u8]), Fault<'_>>
    ensures { Gives expr_of result (reads_at depth (after symbols.comma rules.expression) (pieces bytes.now)) }
{
    let rest = comma(depth, bytes)?;
    expression(alloc, depth, rest)
}

fn more_arguments(
    alloc: Global,
    depth: u16,
    first: CExpr,
    bytes: &[u8],
) -> Result<(Seq<CExpr>, &[u8]), Fault<'_>>
    ensures { Gives exprs_of result (mapped (λ more. expr_of first ∷ more) (reads_at depth (repeat (after symbols.comma rules.expression)) (pieces bytes.now))) }
{
    let mut arguments = Seq::new(alloc);
    arguments.push(first)?;
    let mut rest = bytes;
    // Each further one takes a byte at least.
    for _turn in 0..bytes.len() {
        if !goes_on(depth, COMMA, rest) {
            break;
        }
        let (next, after) = next_argument(alloc, depth, rest)?;
        arguments.push(next)?;
        rest = after;
    }
    Ok((arguments, rest))
}

/// One or more, with a comma between each and the next.
fn some_arguments(alloc: Global, depth: u16, bytes: &[u8]) -> Result<(Seq<CExpr>, &[u8]), Fault<'_>>
    ensures { Gives exprs_of result (reads_at depth (separated symbols.comma rules.expression) (pieces bytes.now)) }
{
    let (first, rest) = expression(alloc, depth, bytes)?;
    more_arguments(alloc, depth, first, rest)
}

#[tactic(auto, using(crate::proofs::Forms::arguments_read))]
fn arguments(alloc: Global, depth: u16, bytes: &[u8]) -> Result<(Seq<CExpr>, &[u8]), Fault<'_>>
    ensures { Gives exprs_of result (reads_at depth rules.arguments_rule (pieces bytes.now)) }
{
    if is_expression(kind(depth, bytes)) {
        return some_arguments(alloc, depth, bytes);
    }
    Ok((Seq::new(alloc), bytes))
}

/// The arguments of a call, with the parentheses around them.
#[tactic(auto, using(c_lexemes::proofs::Opening::openings))]
pub fn arguments_in_parens(
    alloc: Global,
    depth: u16,
    bytes: &[u8],
) -> Result<(Seq<CExpr>, &[u8]), Fault<'_>>
    ensures { Gives exprs_of result (reads_at depth (symbols.parens symbols.arguments) (pieces bytes.now)) }
{
    let (inside, rest) = open(depth, b'(', bytes)?;
    let (arguments, rest) = arguments(alloc, inside, rest)?;
    let rest = close(inside, b')', rest)?;
    Ok((arguments, rest))
}

// ---- initializers

/// Whether it is the number 0 without a suffix.
#[tactic(auto, using(crate::proofs::Forms::zero_number, c_ast::proofs::View::number_is, c_ast::proofs::View::read_is, c_ast::proofs::View::address_is, crate::proofs::Forms::other_expressions))]
fn is_zero_expression(e: &CExpr) -> bool
    ensures { result ≡ rules.is_zero_expr (expr_of e.now) }
{
    match e {
        CExpr::Number(value, suffix) => *value == 0 && *suffix == Suffix::Plain,
        CExpr::Read(_) | CExpr::Address(_) | CExpr::Unary(_, _) => false,
        CExpr::Binary(_, _, _) | CExpr::Cast(_, _) | CExpr::Cond(_, _, _) => false,
    }
}

#[tactic(auto, using(c_ast::proofs::View::one_is, c_ast::proofs::View::zero_is, c_ast::proofs::View::many_is))]
fn is_zero_init(init: &CInit) -> bool
    ensures { result ≡ rules.is_zero_init (init_of init.now) }
{
    match init {
        CInit::One(e) => is_zero_expression(e),
        CInit::Zero | CInit::Many(_) => false,
    }
}

#[tactic(auto, using(crate::proofs::Forms::one_zero, crate::proofs::Forms::not_one))]
fn is_zero(inits: &[CInit]) -> bool
    ensures { result ≡ rules.is_zero (inits_of inits.now) }
{
    if inits.len() == 1 {
        is_zero_init(&inits[0])
    } else {
        false
    }
}

/// `{0}`, or an initializer for each part.
#[tactic(auto, using(c_ast::proofs::View::zero_is, c_ast::proofs::View::many_is, crate::proofs::Forms::inits_same))]
fn braced(inits: Seq<CInit>) -> CInit
    ensures { init_of result ≡ rules.braced (inits_of inits) }
{
    if is_zero(inits.as_slice()) {
        CInit::Zero
    } else {
        CInit::Many(inits)
    }
}

#[cycle(inits)]
fn next_init(alloc: Global, depth: u16, bytes: &[u8]) -> Result<(CInit, &[u8]), Fault<'_>>
    ensures { Gives init_of result (reads_at depth (after symbols.comma rules.initializer) (pieces bytes.now)) }
{
    let rest = comma(depth, bytes)?;
    initializer(alloc, depth, rest)
}

#[cycle(inits)]
fn more_inits(
    alloc: Global,
    depth: u16,
    first: CInit,
    bytes: &[u8],
) -> Result<(Seq<CInit>, &[u8]), Fault<'_>>
    ensures { Gives inits_of result (mapped (λ more. init_of first ∷ more) (reads_at depth (repeat (after symbols.comma rules.initializer)) (pieces bytes.now))) }
{
    let mut inits = Seq::new(alloc);
    inits.push(first)?;
    let mut rest = bytes;
    // Each further one takes a byte at least.
    for _turn in 0..bytes.len() {
        if !goes_on(depth, COMMA, rest) {
            break;
        }
        let (next, after) = next_init(alloc, depth, rest)?;
        inits.push(next)?;
        rest = after;
    }
    Ok((inits, rest))
}

/// One or more, with a comma between each and the next.
#[cycle(inits)]
fn some_inits(alloc: Global, depth: u16, bytes: &[u8]) -> Result<(Seq<CInit>, &[u8]), Fault<'_>>
    ensures { Gives inits_of result (reads_at depth (separated symbols.comma rules.initializer) (pieces bytes.now)) }
{
    let (first, rest) = initializer(alloc, depth, bytes)?;
    more_inits(alloc, depth, first, rest)
}

#[cycle(inits)]
fn initializers(alloc: Global, depth: u16, bytes: &[u8]) -> Result<(CInit, &[u8]), Fault<'_>>
    ensures { Gives init_of result (reads_at depth rules.initializers_rule (pieces bytes.now)) }
{
    let (inits, rest) = some_inits(alloc, depth, bytes)?;
    Ok((braced(inits), rest))
}

#[cycle(inits)]
#[tactic(auto, using(c_lexemes::proofs::Opening::openings))]
fn in_braces(alloc: Global, depth: u16, bytes: &[u8]) -> Result<(CInit, &[u8]), Fault<'_>>
    ensures { Gives init_of result (reads_at depth (symbols.braces symbols.initializers) (pieces bytes.now)) }
{
    let (inside, rest) = open(depth, b'{', bytes)?;
    let (init, rest) = initializers(alloc, inside, rest)?;
    let rest = close(inside, b'}', rest)?;
    Ok((init, rest))
}

/// An initializer.
#[cycle(inits)]
#[tactic(auto, using(crate::proofs::Forms::initializer_read, c_ast::proofs::View::one_is))]
pub fn initializer(alloc: Global, depth: u16, bytes: &[u8]) -> Result<(CInit, &[u8]), Fault<'_>>
    ensures { Gives init_of result (reads_at depth rules.initializer (pieces bytes.now)) }
{
    if is_expression(kind(depth, bytes)) {
        let (value, rest) = expression(alloc, depth, bytes)?;
        return Ok((CInit::One(value), rest));
    }
    in_braces(alloc, depth, bytes)
}
