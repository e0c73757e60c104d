ghost use Rattle.std.specs.Prelude.{◌≡◌, ◌≤◌, ◌<◌, IfOk};
ghost use Rattle.reading.specs.Row.{starts};
ghost use Rattle.reading.specs.Reader.{after, below, many};
ghost use Rattle.ivory_lexer.specs.declared.Key.TheVariants as keys;
ghost use Rattle.ivory_tree.specs.declared.StmtKind.TheVariants.{Downto, Forever, NoAlloc, NoBreak, NoReturn, Upto};
ghost use Rattle.expression_grammar.specs.Reader.{key_reader};
ghost use Rattle.expression_parser.specs.Gives.{Gives};
ghost use Rattle.module_grammar.specs.Trees as tree;
ghost use Rattle.module_grammar.specs.StatementReader as reader;
ghost use Rattle.statement_parser.specs.Parts as parts;

use crate::list::open;
use crate::simple::{allocated, asserted, broken_off, called, copied, let_bound, returned, stored};
use crate::types::number_within;
use expression_parser::{Fault, expression, keyword, mark, name, span_of, starts_key};
use iv_words::{Memory, Name, Seq, Span};
use ivory_lexer::{Key, Mark, Token, TokenKind};
use ivory_tree::{Block, Expr, Stmt, StmtKind};
use module_grammar::{StatementForm, statement_form};
use std::alloc::Global;

fn starts_statement(tokens: &[Token]) -> bool
    ensures { result ≡ starts reader.begins_statement tokens.now }
{
    match tokens {
        [first, ..] => match &first.kind {
            TokenKind::Name(_) => true,
            kind => statement_form(kind).is_some(),
        },
        [] => false,
    }
}

/// None or more statements.
#[cycle(statements)]
fn statements(
    alloc: Global,
    levels: usize,
    tokens: &[Token],
) -> Result<(Seq<Stmt>, &[Token]), Fault<'_>>
    ensures { Gives result (many reader.begins_statement (reader.statement levels) tokens.now) }
{
    let mut stmts = Seq::new(alloc);
    let mut rest = tokens;
    // Each statement takes a token at least.
    for _turn in 0..tokens.len() {
        if !starts_statement(rest) {
            break;
        }
        let (next, after) = statement(alloc, levels, rest)?;
        stmts.push(next)?;
        rest = after;
    }
    Ok((stmts, rest))
}

/// Statements between braces, with so many levels left to nest.
///
/// # Errors
///
/// The first token with which no block goes on, or the first that nests deeper than `levels` levels.
#[cycle(statements)]
#[tactic(auto, using(crate::proofs::Opening::openings), unfolding(module_grammar::specs::StatementReader::block_reader))]
pub fn block(alloc: Global, levels: usize, tokens: &[Token]) -> Result<(Block, &[Token]), Fault<'_>>
    ensures { Gives result (reader.block levels tokens.now) }
{
    let (inner, rest) = open(Mark::OpenBrace, levels, tokens)?;
    let (stmts, rest) = statements(alloc, inner, rest)?;
    let (_, rest) = mark(Mark::CloseBrace, rest)?;
    let span = span_of(tokens, rest);
    Ok((Block { stmts, span }, rest))
}

/// A keyword and a block.
#[cycle(statements)]
fn keyword_and_block(
    alloc: Global,
    wanted: Key,
    levels: usize,
    tokens: &[Token],
) -> Result<(Block, &[Token]), Fault<'_>>
    ensures { Gives result (parts.keyword_and_block levels wanted tokens.now) }
{
    let (_, rest) = keyword(wanted, tokens)?;
    block(alloc, levels, rest)
}

/// The name of a loop and how many values it takes at most.
fn counter(
    alloc: Global,
    levels: usize,
    tokens: &[Token],
) -> Result<((Name, u64), &[Token]), Fault<'_>>
    ensures { Gives result (reader.counter_reader levels tokens.now) }
{
    let (name, rest) = name(alloc, tokens)?;
    let (_, rest) = mark(Mark::Colon, rest)?;
    let (_, rest) = keyword(Key::KwIx, rest)?;
    let (length, rest) = number_within(levels, rest)?;
    Ok(((name, length), rest))
}

#[cycle(statements)]
fn map(alloc: Global, levels: usize, tokens: &[Token]) -> Result<(StmtKind, &[Token]), Fault<'_>>
    ensures { Gives result (reader.map_reader levels (reader.block levels) tokens.now) }
{
    let (_, rest) = keyword(Key::KwMap, tokens)?;
    let ((name, length), rest) = counter(alloc, levels, rest)?;
    let (body, rest) = block(alloc, levels, rest)?;
    Ok((StmtKind::Map(name, length, body), rest))
}

/// A keyword, the bound of a loop, and its block.
#[cycle(statements)]
fn bound_and_block(
    alloc: Global,
    wanted: Key,
    levels: usize,
    tokens: &[Token],
) -> Result<((Expr, Block), &[Token]), Fault<'_>>
    ensures { Gives result (parts.bound_and_block levels wanted tokens.now) }
{
    let (_, rest) = keyword(wanted, tokens)?;
    let (bound, rest) = expression(alloc, levels, rest)?;
    let (body, rest) = block(alloc, levels, rest)?;
    Ok(((bound, body), rest))
}

#[cycle(statements)]
fn upto(alloc: Global, levels: usize, tokens: &[Token]) -> Result<(StmtKind, &[Token]), Fault<'_>>
    ensures { Gives result (reader.bounded_reader levels keys.KwUpto keys.KwLast (λ c. Upto c.0 c.1) (reader.block levels) tokens.now) }
{
    let (_, rest) = keyword(Key::KwUpto, tokens)?;
    let ((name, length), rest) = counter(alloc, levels, rest)?;
    let ((last, body), rest) = bound_and_block(alloc, Key::KwLast, levels, rest)?;
    Ok((StmtKind::Upto(name, length, last, body), rest))
}

#[cycle(statements)]
fn downto(alloc: Global, levels: usize, tokens: &[Token]) -> Result<(StmtKind, &[Token]), Fault<'_>>
    ensures { Gives result (reader.bounded_reader levels keys.KwDownto keys.KwFirst (λ c. Downto c.0 c.1) (reader.block levels) tokens.now) }
{
    let (_, rest) = keyword(Key::KwDownto, tokens)?;
    let ((name, length), rest) = counter(alloc, levels, rest)?;
    let ((first, body), rest) = bound_and_block(alloc, Key::KwFirst, levels, rest)?;
    Ok((StmtKind::Downto(name, length, first, body), rest))
}

/// The block of this one statement, with its place.
fn only(alloc: Global, kind: StmtKind, span: Span) -> Result<Block, Memory>
    ensures { IfOk result (λ b. b ≡ tree.only kind span) }
{
    let mut stmts = Seq::with_capacity(alloc, 1)?;
    stmts.push(Stmt { kind, span })?;
    Ok(Block { stmts, span })
}

/// An `if` behind an `else`, which is open as far as its end.
#[cycle(statements)]
#[tactic(auto, using(reading::proofs::Levels::levels))]
fn else_if(alloc: Global, levels: usize, tokens: &[Token]) -> Result<(Block, &[Token]), Fault<'_>>
    ensures { Gives result (reader.else_if_reader (below reader.if_rest levels) tokens.now) }
{
    let (_, rest) = keyword(Key::KwIf, tokens)?;
    if levels == 0 {
        return Err(Fault::TooDeep(tokens));
    }
    let (kind, rest) = if_rest(alloc, levels - 1, rest)?;
    let span = span_of(tokens, rest);
    Ok((only(alloc, kind, span)?, rest))
}

#[cycle(statements)]
fn alternative(
    alloc: Global,
    levels: usize,
    tokens: &[Token],
) -> Result<(Block, &[Token]), Fault<'_>>
    ensures { Gives result (reader.alternative_reader (reader.block levels) (below reader.if_rest levels) tokens.now) }
{
    if starts_key(Key::KwIf, tokens) {
        else_if(alloc, levels, tokens)
    } else {
        block(alloc, levels, tokens)
    }
}

/// An `else` and what follows it, if an `else` comes next.
#[cycle(statements)]
fn otherwise(
    alloc: Global,
    levels: usize,
    tokens: &[Token],
) -> Result<(Option<Block>, &[Token]), Fault<'_>>
    ensures { Gives result (parts.otherwise levels tokens.now) }
{
    if !starts_key(Key::KwElse, tokens) {
        return Ok((None, tokens));
    }
    let (_, rest) = keyword(Key::KwElse, tokens)?;
    let (body, rest) = alternative(alloc, levels, rest)?;
    Ok((Some(body), rest))
}

/// What follows an `if`.
#[cycle(statements)]
#[tactic(auto, using(module_grammar::proofs::Unfold::if_rest_below), unfolding(module_grammar::specs::StatementReader::if_reader))]
fn if_rest(
    alloc: Global,
    levels: usize,
    tokens: &[Token],
) -> Result<(StmtKind, &[Token]), Fault<'_>>
    ensures { Gives result (reader.if_rest levels tokens.now) }
{
    let (test, rest) = expression(alloc, levels, tokens)?;
    let (body, rest) = block(alloc, levels, rest)?;
    let (other, rest) = otherwise(alloc, levels, rest)?;
    Ok((StmtKind::If(test, body, other), rest))
}

#[cycle(statements)]
fn if_else(
    alloc: Global,
    levels: usize,
    tokens: &[Token],
) -> Result<(StmtKind, &[Token]), Fault<'_>>
    ensures { Gives result (after (key_reader keys.KwIf) (reader.if_rest levels) tokens.now) }
{
    let (_, rest) = keyword(Key::KwIf, tokens)?;
    if_rest(alloc, levels, rest)
}

#[cycle(statements)]
fn forever(
    alloc: Global,
    levels: usize,
    tokens: &[Token],
) -> Result<(StmtKind, &[Token]), Fault<'_>>
    ensures { Gives result (reader.narrowing_reader keys.KwForever Forever (reader.block levels) tokens.now) }
{
    let (body, rest) = keyword_and_block(alloc, Key::KwForever, levels, tokens)?;
    Ok((StmtKind::Forever(body), rest))
}

#[cycle(statements)]
fn no_alloc(
    alloc: Global,
    levels: usize,
    tokens: &[Token],
) -> Result<(StmtKind, &[Token]), Fault<'_>>
    ensures { Gives result (reader.narrowing_reader keys.KwNoalloc NoAlloc (reader.block levels) tokens.now) }
{
    let (body, rest) = keyword_and_block(alloc, Key::KwNoalloc, levels, tokens)?;
    Ok((StmtKind::NoAlloc(body), rest))
}

#[cycle(statements)]
fn no_break(
    alloc: Global,
    levels: usize,
    tokens: &[Token],
) -> Result<(StmtKind, &[Token]), Fault<'_>>
    ensures { Gives result (reader.narrowing_reader keys.KwNobreak NoBreak (reader.block levels) tokens.now) }
{
    let (body, rest) = keyword_and_block(alloc, Key::KwNobreak, levels, tokens)?;
    Ok((StmtKind::NoBreak(body), rest))
}

#[cycle(statements)]
fn no_return(
    alloc: Global,
    levels: usize,
    tokens: &[Token],
) -> Result<(StmtKind, &[Token]), Fault<'_>>
    ensures { Gives result (reader.narrowing_reader keys.KwNoreturn NoReturn (reader.block levels) tokens.now) }
{
    let (body, rest) = keyword_and_block(alloc, Key::KwNoreturn, levels, tokens)?;
    Ok((StmtKind::NoReturn(body), rest))
}

#[cycle(statements)]
fn of_form(
    alloc: Global,
    form: StatementForm,
    levels: usize,
    tokens: &[Token],
) -> Result<(StmtKind, &[Token]), Fault<'_>>
    ensures { Gives result (reader.form_reader levels (reader.block levels) (reader.if_rest levels) form tokens.now) }
{
    match form {
        StatementForm::Let => let_bound(alloc, levels, tokens),
        StatementForm::Alloc => allocated(alloc, levels, tokens),
        StatementForm::Store => stored(alloc, levels, tokens),
        StatementForm::Copy => copied(alloc, levels, tokens),
        StatementForm::If => if_else(alloc, levels, tokens),
        StatementForm::Forever => forever(alloc, levels, tokens),
        StatementForm::Map => map(alloc, levels, tokens),
        StatementForm::Upto => upto(alloc, levels, tokens),
        StatementForm::Downto => downto(alloc, levels, tokens),
        StatementForm::Break => broken_off(tokens),
        StatementForm::Return => returned(alloc, levels, tokens),
        StatementForm::Assert => asserted(alloc, levels, tokens),
        StatementForm::NoAlloc => no_alloc(alloc, levels, tokens),
        StatementForm::NoBreak => no_break(alloc, levels, tokens),
        StatementForm::NoReturn => no_return(alloc, levels, tokens),
    }
}

/// What a statement is. Where no form begins so, a call is wanted.
#[cycle(statements)]
fn kind_of_statement(
    alloc: Global,
    levels: usize,
    tokens: &[Token],
) -> Result<(StmtKind, &[Token]), Fault<'_>>
    ensures { Gives result (parts.kind_of_statement levels tokens.now) }
{
    match tokens {
        [first, ..] => match statement_form(&first.kind) {
            Some(form) => of_form(alloc, form, levels, tokens),
            None => called(alloc, levels, tokens),
        },
        [] => called(alloc, levels, tokens),
    }
}

#[cycle(statements)]
#[tactic(auto, using(module_grammar::proofs::Unfold::statement_below), unfolding(module_grammar::specs::StatementReader::statement_reader))]
fn statement(alloc: Global, levels: usize, tokens: &[Token]) -> Result<(Stmt, &[Token]), Fault<'_>>
    ensures { Gives result (reader.statement levels tokens.now) }
{
    let (kind, rest) = kind_of_statement(alloc, levels, tokens)?;
    let span = span_of(tokens, rest);
    Ok((Stmt { kind, span }, rest))
}
