ghost use Rattle.std.specs.Prelude.{◌≡◌};
ghost use Rattle.reading.specs.Row.{starts};
ghost use Rattle.reading.specs.Reader.{accept, sign_first};
ghost use Rattle.expression_grammar.specs.Tokens.{signs};
ghost use Rattle.expression_grammar.specs.Operators as operators;
ghost use Rattle.expression_parser.specs.Gives.{Gives};

use crate::fault::Fault;
use iv_words::Span;
use ivory_lexer::{Mark, Token, TokenKind};
use ivory_tree::{BinOp, PrefixOp};

fn binary_of_mark(mark: Mark) -> Option<BinOp>
    ensures { result ≡ operators.binary_of_mark mark }
{
    match mark {
        Mark::PipePipe => Some(BinOp::OrElse),
        Mark::AmpAmp => Some(BinOp::AndAlso),
        Mark::Pipe => Some(BinOp::Or),
        Mark::Caret => Some(BinOp::Xor),
        Mark::Amp => Some(BinOp::And),
        Mark::EqualEqual => Some(BinOp::Eq),
        Mark::BangEqual => Some(BinOp::Ne),
        Mark::Less => Some(BinOp::Lt),
        Mark::LessEqual => Some(BinOp::Le),
        Mark::Greater => Some(BinOp::Gt),
        Mark::GreaterEqual => Some(BinOp::Ge),
        Mark::Shl => Some(BinOp::Shl),
        Mark::Shr => Some(BinOp::Shr),
        Mark::Plus => Some(BinOp::Add),
        Mark::Minus => Some(BinOp::Sub),
        Mark::PlusPercent => Some(BinOp::WrapAdd),
        Mark::MinusPercent => Some(BinOp::WrapSub),
        Mark::Star => Some(BinOp::Mul),
        Mark::Slash => Some(BinOp::Div),
        Mark::Percent => Some(BinOp::Rem),
        Mark::StarPercent => Some(BinOp::WrapMul),
        _ => None,
    }
}

/// How loosely an operator binds, from 0, the tightest.
fn looseness(op: BinOp) -> usize
    ensures { result ≡ operators.looseness op }
{
    match op {
        BinOp::Mul | BinOp::Div | BinOp::Rem | BinOp::WrapMul => 0,
        BinOp::Add | BinOp::Sub | BinOp::WrapAdd | BinOp::WrapSub => 1,
        BinOp::Shl | BinOp::Shr => 2,
        BinOp::Lt | BinOp::Le | BinOp::Gt | BinOp::Ge => 3,
        BinOp::Eq | BinOp::Ne => 4,
        BinOp::And => 5,
        BinOp::Xor => 6,
        BinOp::Or => 7,
        BinOp::AndAlso => 8,
        BinOp::OrElse => 9,
    }
}

/// The operator of this level, if the token is one.
fn operator_of(level: usize, token: &Token) -> Option<(BinOp, Span)>
    ensures { result ≡ operators.operator level token.now }
{
    let TokenKind::Mark(mark) = token.kind else {
        return None;
    };
    match binary_of_mark(mark) {
        Some(op) if looseness(op) == level => Some((op, token.span)),
        _ => None,
    }
}

/// Takes an operator of this level, and gives it with its place.
pub fn operator(level: usize, tokens: &[Token]) -> Result<((BinOp, Span), &[Token]), Fault<'_>>
    ensures { Gives result (accept (operators.operator level) tokens.now) }
{
    match tokens {
        [first, rest @ ..] => match operator_of(level, first) {
            Some(op) => Ok((op, rest)),
            None => Err(Fault::Unexpected(tokens)),
        },
        [] => Err(Fault::Unexpected(tokens)),
    }
}

/// Whether the next token is an operator of this level.
pub fn starts_operator(level: usize, tokens: &[Token]) -> bool
    ensures { result ≡ starts (operators.is_operator level) tokens.now }
{
    match tokens {
        [first, ..] => operator_of(level, first).is_some(),
        [] => false,
    }
}

fn is_operator_below(level: usize, token: &Token) -> bool
    ensures { result ≡ operators.binds_below level token.now }
{
    let TokenKind::Mark(mark) = token.kind else {
        return false;
    };
    match binary_of_mark(mark) {
        Some(op) => looseness(op) < level,
        None => false,
    }
}

/// Whether the next token is an operator of a level below this one.
pub fn starts_operator_below(level: usize, tokens: &[Token]) -> bool
    ensures { result ≡ starts (operators.binds_below level) tokens.now }
{
    match tokens {
        [first, ..] => is_operator_below(level, first),
        [] => false,
    }
}

/// The prefix operator that this is, a `-` aside.
fn plain_prefix_of(kind: &TokenKind) -> Option<PrefixOp>
    ensures { result ≡ operators.plain_prefix_of kind.now }
{
    match kind {
        TokenKind::Mark(Mark::Tilde) => Some(PrefixOp::Flip),
        TokenKind::Mark(Mark::Bang) => Some(PrefixOp::Not),
        TokenKind::Mark(Mark::Star) => Some(PrefixOp::Deref),
        _ => None,
    }
}

/// Takes a prefix operator, but no `-`.
pub fn plain_prefix(tokens: &[Token]) -> Result<(PrefixOp, &[Token]), Fault<'_>>
    ensures { Gives result (accept operators.plain_prefix tokens.now) }
{
    match tokens {
        [first, rest @ ..] => match plain_prefix_of(&first.kind) {
            Some(op) => Ok((op, rest)),
            None => Err(Fault::Unexpected(tokens)),
        },
        [] => Err(Fault::Unexpected(tokens)),
    }
}

/// Whether the next token is a prefix operator other than `-`.
pub fn starts_plain_prefix(tokens: &[Token]) -> bool
    ensures { result ≡ starts operators.is_plain_prefix tokens.now }
{
    match tokens {
        [first, ..] => plain_prefix_of(&first.kind).is_some(),
        [] => false,
    }
}

/// Whether a `-` comes next that is not a number's sign.
pub fn starts_negation(tokens: &[Token]) -> bool
    ensures { result ≡ sign_first signs tokens.now }
{
    match tokens {
        [
            Token {
                kind: TokenKind::Mark(Mark::Minus),
                ..
            },
            Token {
                kind: TokenKind::Number(_),
                ..
            },
            ..
        ] => false,
        [
            Token {
                kind: TokenKind::Mark(Mark::Minus),
                ..
            },
            ..
        ] => true,
        _ => false,
    }
}
