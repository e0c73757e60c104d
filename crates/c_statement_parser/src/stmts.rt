//! Statements, and the lines of a block.

ghost use Rattle.std.specs.Prelude.{◌≡◌, Some};
ghost use Rattle.std.specs.Option.{option_map};
ghost use Rattle.c_ast.specs.View.{expr_of, stmt_of, stmts_of};
ghost use Rattle.grammars.specs.Grammar.{after, before, optional, repeat, sequence};
ghost use Rattle.c_grammar.specs.Pieces as piece;
ghost use Rattle.c_grammar.specs.Pieces.{pieces};
ghost use Rattle.c_grammar.specs.Symbols as symbols;
ghost use Rattle.c_grammar.specs.StatementRules as rules;
ghost use Rattle.c_lexemes.specs.Gives.{Gives, Passes};
ghost use Rattle.c_lexemes.specs.Levels.{reads_at};
ghost use Rattle.c_statement_parser.specs.Views.{branches_of, lines_of};

use crate::declared::{block_node, forever_node, if_node};
use crate::simple::simple;
use c_ast::{CExpr, CStmt};
use c_expression_parser::expression;
use c_lexemes::{
    FOR, Fault, Fixed, IF, INDENTATION, ONE_BLANK, OPEN_BRACE, blank, close, fixed, goes_on,
    indentation, is_next, kind, mark, open, outdentation,
};
use iv_words::Seq;
use std::alloc::Global;

#[tactic(auto, using(c_lexemes::proofs::Opening::openings))]
fn expression_in_parens(
    alloc: Global,
    depth: u16,
    bytes: &[u8],
) -> Result<(CExpr, &[u8]), Fault<'_>>
    ensures { Gives expr_of result (reads_at depth (symbols.parens symbols.an_expression) (pieces bytes.now)) }
{
    let (inside, rest) = open(depth, b'(', bytes)?;
    let (value, rest) = expression(alloc, inside, rest)?;
    let rest = close(inside, b')', rest)?;
    Ok((value, rest))
}

/// `if (E)`.
fn condition(alloc: Global, depth: u16, bytes: &[u8]) -> Result<(CExpr, &[u8]), Fault<'_>>
    ensures { Gives expr_of result (reads_at depth rules.condition (pieces bytes.now)) }
{
    let rest = fixed(depth, Fixed::If, bytes)?;
    let rest = blank(depth, rest)?;
    expression_in_parens(alloc, depth, rest)
}

fn semicolons(depth: u16, bytes: &[u8]) -> Result<&[u8], Fault<'_>>
    ensures { Passes (piece.Byte 59) result (reads_at depth rules.forever_rule (pieces bytes.now)) }
{
    let rest = mark(depth, b';', bytes)?;
    mark(depth, b';', rest)
}

/// `(;;)`.
#[tactic(auto, using(c_lexemes::proofs::Opening::openings))]
fn forever_in_parens(depth: u16, bytes: &[u8]) -> Result<&[u8], Fault<'_>>
    ensures { Passes (piece.Byte 59) result (reads_at depth (symbols.parens symbols.forever) (pieces bytes.now)) }
{
    let (inside, rest) = open(depth, b'(', bytes)?;
    let rest = semicolons(inside, rest)?;
    close(inside, b')', rest)
}

/// A block.
#[cycle(statements)]
#[tactic(auto, using(c_lexemes::proofs::Opening::openings))]
fn block(alloc: Global, depth: u16, bytes: &[u8]) -> Result<(Seq<CStmt>, &[u8]), Fault<'_>>
    ensures { Gives stmts_of result (reads_at depth rules.block (pieces bytes.now)) }
{
    let (inside, rest) = open(depth, b'{', bytes)?;
    let (body, rest) = block_lines(alloc, inside, rest)?;
    let rest = close(inside, b'}', rest)?;
    Ok((body, rest))
}

#[cycle(statements)]
fn block_lines(alloc: Global, depth: u16, bytes: &[u8]) -> Result<(Seq<CStmt>, &[u8]), Fault<'_>>
    ensures { Gives stmts_of result (reads_at depth rules.block_rule (pieces bytes.now)) }
{
    let (body, rest) = lines(alloc, depth, bytes)?;
    let rest = outdentation(depth, rest)?;
    Ok((body, rest))
}

/// The lines of statements behind the brace.
#[cycle(statements)]
#[tactic(auto, using(crate::proofs::Forms::stmts_same))]
pub fn lines(alloc: Global, depth: u16, bytes: &[u8]) -> Result<(Seq<CStmt>, &[u8]), Fault<'_>>
    ensures { Gives stmts_of result (reads_at depth rules.lines (pieces bytes.now)) }
{
    let rest = mark(depth, b'\n', bytes)?;
    let (lines, rest) = statement_lines(alloc, depth, rest)?;
    Ok((lines, rest))
}

#[cycle(statements)]
fn statement_lines(
    alloc: Global,
    depth: u16,
    bytes: &[u8],
) -> Result<(Seq<CStmt>, &[u8]), Fault<'_>>
    ensures { Gives lines_of result (reads_at depth (repeat rules.statement_line) (pieces bytes.now)) }
{
    let mut lines = Seq::new(alloc);
    let mut rest = bytes;
    // Each line takes a byte at least.
    for _turn in 0..bytes.len() {
        if !goes_on(depth, INDENTATION, rest) {
            break;
        }
        let (next, after) = statement_line(alloc, depth, rest)?;
        lines.push(next)?;
        rest = after;
    }
    Ok((lines, rest))
}

#[cycle(statements)]
fn statement_end(alloc: Global, depth: u16, bytes: &[u8]) -> Result<(CStmt, &[u8]), Fault<'_>>
    ensures { Gives stmt_of result (reads_at depth (before rules.statement symbols.new_line) (pieces bytes.now)) }
{
    let (stmt, rest) = statement(alloc, depth, bytes)?;
    let rest = mark(depth, b'\n', rest)?;
    Ok((stmt, rest))
}

/// A statement on a line of its own.
#[cycle(statements)]
fn statement_line(alloc: Global, depth: u16, bytes: &[u8]) -> Result<(CStmt, &[u8]), Fault<'_>>
    ensures { Gives stmt_of result (reads_at depth rules.statement_line (pieces bytes.now)) }
{
    let rest = indentation(depth, bytes)?;
    statement_end(alloc, depth, rest)
}

/// The block behind an `else`.
#[cycle(statements)]
fn else_block(alloc: Global, depth: u16, bytes: &[u8]) -> Result<(Seq<CStmt>, &[u8]), Fault<'_>>
    ensures { Gives stmts_of result (reads_at depth (after symbols.blank (after symbols.word_else (after symbols.blank rules.block))) (pieces bytes.now)) }
{
    let rest = blank(depth, bytes)?;
    let rest = fixed(depth, Fixed::Else, rest)?;
    let rest = blank(depth, rest)?;
    block(alloc, depth, rest)
}

#[cycle(statements)]
fn otherwise(
    alloc: Global,
    depth: u16,
    bytes: &[u8],
) -> Result<(Option<Seq<CStmt>>, &[u8]), Fault<'_>>
    ensures { Gives (option_map stmts_of) result (reads_at depth rules.otherwise (pieces bytes.now)) }
{
    if !is_next(depth, ONE_BLANK, bytes) {
        return Ok((None, bytes));
    }
    let (body, rest) = else_block(alloc, depth, bytes)?;
    Ok((Some(body), rest))
}

#[cycle(statements)]
fn both_blocks(
    alloc: Global,
    depth: u16,
    bytes: &[u8],
) -> Result<((Seq<CStmt>, Option<Seq<CStmt>>), &[u8]), Fault<'_>>
    ensures { Gives branches_of result (reads_at depth (sequence symbols.pair rules.block rules.otherwise) (pieces bytes.now)) }
{
    let (first, rest) = block(alloc, depth, bytes)?;
    let (second, rest) = otherwise(alloc, depth, rest)?;
    Ok(((first, second), rest))
}

/// The blocks of an `if`, with the blank before them.
#[cycle(statements)]
fn branches(
    alloc: Global,
    depth: u16,
    bytes: &[u8],
) -> Result<((Seq<CStmt>, Option<Seq<CStmt>>), &[u8]), Fault<'_>>
    ensures { Gives branches_of result (reads_at depth (after symbols.blank (sequence symbols.pair rules.block rules.otherwise)) (pieces bytes.now)) }
{
    let rest = blank(depth, bytes)?;
    both_blocks(alloc, depth, rest)
}

#[cycle(statements)]
fn if_statement(alloc: Global, depth: u16, bytes: &[u8]) -> Result<(CStmt, &[u8]), Fault<'_>>
    ensures { Gives stmt_of result (reads_at depth rules.if_statement (pieces bytes.now)) }
{
    let (test, rest) = condition(alloc, depth, bytes)?;
    let ((first, second), rest) = branches(alloc, depth, rest)?;
    Ok((if_node(test, first, second), rest))
}

/// `(;;)` and the block of a loop.
#[cycle(statements)]
fn loop_body(alloc: Global, depth: u16, bytes: &[u8]) -> Result<(Seq<CStmt>, &[u8]), Fault<'_>>
    ensures { Gives stmts_of result (reads_at depth (after (symbols.parens symbols.forever) (after symbols.blank rules.block)) (pieces bytes.now)) }
{
    let rest = forever_in_parens(depth, bytes)?;
    let rest = blank(depth, rest)?;
    block(alloc, depth, rest)
}

#[cycle(statements)]
fn for_statement(alloc: Global, depth: u16, bytes: &[u8]) -> Result<(CStmt, &[u8]), Fault<'_>>
    ensures { Gives stmt_of result (reads_at depth rules.for_statement (pieces bytes.now)) }
{
    let rest = fixed(depth, Fixed::For, bytes)?;
    let rest = blank(depth, rest)?;
    let (body, rest) = loop_body(alloc, depth, rest)?;
    Ok((forever_node(body), rest))
}

/// A statement and its semicolon.
fn simple_statement(alloc: Global, depth: u16, bytes: &[u8]) -> Result<(CStmt, &[u8]), Fault<'_>>
    ensures { Gives stmt_of result (reads_at depth (before rules.simple symbols.semicolon) (pieces bytes.now)) }
{
    let (stmt, rest) = simple(alloc, depth, bytes)?;
    let rest = mark(depth, b';', rest)?;
    Ok((stmt, rest))
}

/// A statement, without the blanks before it and the end of its line.
#[cycle(statements)]
#[tactic(auto, unfolding(c_grammar::specs::StatementRules::statement))]
fn statement(alloc: Global, depth: u16, bytes: &[u8]) -> Result<(CStmt, &[u8]), Fault<'_>>
    ensures { Gives stmt_of result (reads_at depth rules.statement (pieces bytes.now)) }
{
    let kind = kind(depth, bytes);
    if kind == IF {
        return if_statement(alloc, depth, bytes);
    }
    if kind == FOR {
        return for_statement(alloc, depth, bytes);
    }
    if kind == OPEN_BRACE {
        let (body, rest) = block(alloc, depth, bytes)?;
        return Ok((block_node(body), rest));
    }
    simple_statement(alloc, depth, bytes)
}
