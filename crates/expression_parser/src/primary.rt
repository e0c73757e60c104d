ghost use Rattle.std.specs.Prelude.{◌≡◌, ◌≤◌, ◌<◌, IfOk};
ghost use Rattle.std.specs.Option.{option_map};
ghost use Rattle.ivory_lexer.specs.declared.Mark.TheVariants as mark_is;
ghost use Rattle.reading.specs.Reader.{accept, after, below, enclosed};
ghost use Rattle.expression_grammar.specs.Tokens.{name_of, number_of, symbol, word_of};
ghost use Rattle.expression_grammar.specs.Trees as tree;
ghost use Rattle.expression_grammar.specs.Reader as reader;
ghost use Rattle.expression_parser.specs.Gives.{Gives};

use crate::expr::expression;
use crate::fault::Fault;
use crate::leaf::{negative_literal, number_literal, outcome, truth_literal, variable};
use crate::token::{followed_by, int_kind, keyword, mark, name, number, span_of, word};
use expression_grammar::{PrimaryForm, primary_form};
use iv_words::{Box, Memory, Name, Span, Word};
use ivory_lexer::{Key, Mark, Token};
use ivory_tree::{Expr, ExprKind};
use std::alloc::Global;

/// An expression between brackets.
#[cycle(exprs)]
#[tactic(auto, using(reading::proofs::Levels::levels))]
pub fn bracketed(
    alloc: Global,
    opens: Mark,
    closes: Mark,
    levels: usize,
    tokens: &[Token],
) -> Result<(Expr, &[Token]), Fault<'_>>
    ensures { Gives result (enclosed (symbol opens) (symbol closes) (λ x at. x) (below reader.expression levels) tokens.now) }
{
    let (_, rest) = mark(opens, tokens)?;
    if levels == 0 {
        return Err(Fault::TooDeep(tokens));
    }
    let (x, rest) = expression(alloc, levels - 1, rest)?;
    followed_by(x, closes, rest)
}

/// An expression between parentheses.
#[cycle(exprs)]
pub fn within(alloc: Global, levels: usize, tokens: &[Token]) -> Result<(Expr, &[Token]), Fault<'_>>
    ensures { Gives result (reader.within (below reader.expression levels) tokens.now) }
{
    bracketed(alloc, Mark::OpenParen, Mark::CloseParen, levels, tokens)
}

/// A comma and an expression.
#[cycle(exprs)]
fn next_value(alloc: Global, levels: usize, tokens: &[Token]) -> Result<(Expr, &[Token]), Fault<'_>>
    ensures { Gives result (after (reader.mark_reader mark_is.Comma) (reader.expression levels) tokens.now) }
{
    let (_, rest) = mark(Mark::Comma, tokens)?;
    expression(alloc, levels, rest)
}

#[cycle(exprs)]
fn length_and_value(
    alloc: Global,
    levels: usize,
    tokens: &[Token],
) -> Result<((u64, Expr), &[Token]), Fault<'_>>
    ensures { Gives result (reader.beside (accept number_of) (reader.expression levels) tokens.now) }
{
    let (length, rest) = number(tokens)?;
    let (x, rest) = next_value(alloc, levels, rest)?;
    Ok(((length, x), rest))
}

/// A number and an expression between parentheses.
#[cycle(exprs)]
#[tactic(auto, using(reading::proofs::Levels::levels))]
fn indexed(
    alloc: Global,
    levels: usize,
    tokens: &[Token],
) -> Result<((u64, Expr), &[Token]), Fault<'_>>
    ensures { Gives result (reader.within (option_map (reader.beside (accept number_of)) (below reader.expression levels)) tokens.now) }
{
    let (_, rest) = mark(Mark::OpenParen, tokens)?;
    if levels == 0 {
        return Err(Fault::TooDeep(tokens));
    }
    let (parts, rest) = length_and_value(alloc, levels - 1, rest)?;
    followed_by(parts, Mark::CloseParen, rest)
}

#[cycle(exprs)]
fn name_and_value(
    alloc: Global,
    levels: usize,
    tokens: &[Token],
) -> Result<((Word, Expr), &[Token]), Fault<'_>>
    ensures { Gives result (reader.beside (accept word_of) (reader.expression levels) tokens.now) }
{
    let (name, rest) = word(alloc, tokens)?;
    let (x, rest) = next_value(alloc, levels, rest)?;
    Ok(((name, x), rest))
}

/// A name and an expression between parentheses.
#[cycle(exprs)]
#[tactic(auto, using(reading::proofs::Levels::levels))]
fn of_type(
    alloc: Global,
    levels: usize,
    tokens: &[Token],
) -> Result<((Word, Expr), &[Token]), Fault<'_>>
    ensures { Gives result (reader.within (option_map (reader.beside (accept word_of)) (below reader.expression levels)) tokens.now) }
{
    let (_, rest) = mark(Mark::OpenParen, tokens)?;
    if levels == 0 {
        return Err(Fault::TooDeep(tokens));
    }
    let (parts, rest) = name_and_value(alloc, levels - 1, rest)?;
    followed_by(parts, Mark::CloseParen, rest)
}

/// A field and its new value.
#[cycle(exprs)]
fn field_and_value(
    alloc: Global,
    levels: usize,
    tokens: &[Token],
) -> Result<((Name, Expr), &[Token]), Fault<'_>>
    ensures { Gives result (reader.beside (accept name_of) (reader.expression levels) tokens.now) }
{
    let (field, rest) = name(alloc, tokens)?;
    let (value, rest) = next_value(alloc, levels, rest)?;
    Ok(((field, value), rest))
}

#[cycle(exprs)]
fn next_field(
    alloc: Global,
    levels: usize,
    tokens: &[Token],
) -> Result<((Name, Expr), &[Token]), Fault<'_>>
    ensures { Gives result (after (reader.mark_reader mark_is.Comma) (reader.beside (accept name_of) (reader.expression levels)) tokens.now) }
{
    let (_, rest) = mark(Mark::Comma, tokens)?;
    field_and_value(alloc, levels, rest)
}

#[cycle(exprs)]
fn value_and_change(
    alloc: Global,
    levels: usize,
    tokens: &[Token],
) -> Result<((Expr, (Name, Expr)), &[Token]), Fault<'_>>
    ensures { Gives result (reader.change (reader.expression levels) tokens.now) }
{
    let (x, rest) = expression(alloc, levels, tokens)?;
    let (change, rest) = next_field(alloc, levels, rest)?;
    Ok(((x, change), rest))
}

/// An expression, a field and its new value between parentheses.
#[cycle(exprs)]
#[tactic(auto, using(reading::proofs::Levels::levels))]
fn change(
    alloc: Global,
    levels: usize,
    tokens: &[Token],
) -> Result<((Expr, (Name, Expr)), &[Token]), Fault<'_>>
    ensures { Gives result (reader.within (option_map reader.change (below reader.expression levels)) tokens.now) }
{
    let (_, rest) = mark(Mark::OpenParen, tokens)?;
    if levels == 0 {
        return Err(Fault::TooDeep(tokens));
    }
    let (parts, rest) = value_and_change(alloc, levels - 1, rest)?;
    followed_by(parts, Mark::CloseParen, rest)
}

#[cycle(exprs)]
fn cast(alloc: Global, levels: usize, tokens: &[Token]) -> Result<(Expr, &[Token]), Fault<'_>>
    ensures { Gives result (reader.cast_reader (below reader.expression levels) tokens.now) }
{
    let (int, rest) = int_kind(tokens)?;
    let (x, rest) = within(alloc, levels, rest)?;
    let span = span_of(tokens, rest);
    let kind = ExprKind::Cast(int, Box::new(alloc, x)?);
    Ok((Expr { kind, span }, rest))
}

#[cycle(exprs)]
fn to_index(alloc: Global, levels: usize, tokens: &[Token]) -> Result<(Expr, &[Token]), Fault<'_>>
    ensures { Gives result (reader.to_index_reader (below reader.expression levels) tokens.now) }
{
    let (_, rest) = keyword(Key::KwToix, tokens)?;
    let ((length, x), rest) = indexed(alloc, levels, rest)?;
    let span = span_of(tokens, rest);
    let kind = ExprKind::ToIx(length, Box::new(alloc, x)?);
    Ok((Expr { kind, span }, rest))
}

#[cycle(exprs)]
fn wrap_index(alloc: Global, levels: usize, tokens: &[Token]) -> Result<(Expr, &[Token]), Fault<'_>>
    ensures { Gives result (reader.wrap_index_reader (below reader.expression levels) tokens.now) }
{
    let (_, rest) = keyword(Key::KwWrapix, tokens)?;
    let ((length, x), rest) = indexed(alloc, levels, rest)?;
    let span = span_of(tokens, rest);
    let kind = ExprKind::WrapIx(length, Box::new(alloc, x)?);
    Ok((Expr { kind, span }, rest))
}

#[cycle(exprs)]
fn make_bits(alloc: Global, levels: usize, tokens: &[Token]) -> Result<(Expr, &[Token]), Fault<'_>>
    ensures { Gives result (reader.make_bits_reader (below reader.expression levels) tokens.now) }
{
    let (_, rest) = keyword(Key::KwBits, tokens)?;
    let ((name, x), rest) = of_type(alloc, levels, rest)?;
    let span = span_of(tokens, rest);
    let kind = ExprKind::MakeBits(name, Box::new(alloc, x)?);
    Ok((Expr { kind, span }, rest))
}

#[cycle(exprs)]
fn raw(alloc: Global, levels: usize, tokens: &[Token]) -> Result<(Expr, &[Token]), Fault<'_>>
    ensures { Gives result (reader.raw_reader (below reader.expression levels) tokens.now) }
{
    let (_, rest) = keyword(Key::KwRaw, tokens)?;
    let (x, rest) = within(alloc, levels, rest)?;
    let span = span_of(tokens, rest);
    let kind = ExprKind::Raw(Box::new(alloc, x)?);
    Ok((Expr { kind, span }, rest))
}

fn set_node(alloc: Global, x: Expr, field: Name, value: Expr, span: Span) -> Result<Expr, Memory>
    ensures { IfOk result (λ e. e ≡ tree.set_field x field value span) }
{
    let kind = ExprKind::Set(Box::new(alloc, x)?, field, Box::new(alloc, value)?);
    Ok(Expr { kind, span })
}

#[cycle(exprs)]
fn set_field(alloc: Global, levels: usize, tokens: &[Token]) -> Result<(Expr, &[Token]), Fault<'_>>
    ensures { Gives result (reader.set_field_reader (below reader.expression levels) tokens.now) }
{
    let (_, rest) = keyword(Key::KwSet, tokens)?;
    let ((x, (field, value)), rest) = change(alloc, levels, rest)?;
    let span = span_of(tokens, rest);
    Ok((set_node(alloc, x, field, value, span)?, rest))
}

#[cycle(exprs)]
fn of_form(
    alloc: Global,
    form: PrimaryForm,
    levels: usize,
    tokens: &[Token],
) -> Result<(Expr, &[Token]), Fault<'_>>
    ensures { Gives result (reader.form_reader (below reader.expression levels) form tokens.now) }
{
    match form {
        PrimaryForm::Number => number_literal(tokens),
        PrimaryForm::Negative => negative_literal(tokens),
        PrimaryForm::Truth => truth_literal(tokens),
        PrimaryForm::Outcome => outcome(tokens),
        PrimaryForm::Variable => variable(alloc, tokens),
        PrimaryForm::Cast => cast(alloc, levels, tokens),
        PrimaryForm::ToIndex => to_index(alloc, levels, tokens),
        PrimaryForm::WrapIndex => wrap_index(alloc, levels, tokens),
        PrimaryForm::MakeBits => make_bits(alloc, levels, tokens),
        PrimaryForm::Raw => raw(alloc, levels, tokens),
        PrimaryForm::SetField => set_field(alloc, levels, tokens),
    }
}

/// An operand without what may stand before and behind it. Where no form begins so, parentheses are wanted.
#[cycle(exprs)]
#[tactic(auto, unfolding(expression_grammar::specs::Reader::primary_reader))]
pub fn primary(
    alloc: Global,
    levels: usize,
    tokens: &[Token],
) -> Result<(Expr, &[Token]), Fault<'_>>
    ensures { Gives result (reader.primary_reader (below reader.expression levels) tokens.now) }
{
    match tokens {
        [first, ..] => match primary_form(&first.kind) {
            Some(form) => of_form(alloc, form, levels, tokens),
            None => within(alloc, levels, tokens),
        },
        [] => Err(Fault::Unexpected(tokens)),
    }
}
