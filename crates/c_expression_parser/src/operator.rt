//! The operators between two operands.

ghost use Rattle.std.specs.Prelude.{◌≡◌, true};
ghost use Rattle.c_ast.specs.declared.expr.CBinary.TheVariants as op;
ghost use Rattle.grammars.specs.Kinds.{first};
ghost use Rattle.grammars.specs.Grammar.{after, choice};
ghost use Rattle.c_grammar.specs.Pieces.{pieces};
ghost use Rattle.c_grammar.specs.Symbols as symbols;
ghost use Rattle.c_grammar.specs.ExpressionRules as rules;
ghost use Rattle.c_lexemes.specs.Gives.{Gives, itself};
ghost use Rattle.c_lexemes.specs.Levels.{begins_with, is_mark, reads_at};

use c_ast::CBinary;
use c_lexemes::{Fault, is_next, kind, mark};

/// Whether such an operator begins here.
#[tactic(auto, unfolding(c_grammar::specs::ExpressionRules::binary_operator))]
pub fn starts_operator(depth: u16, bytes: &[u8]) -> bool
    ensures { result ≡ begins_with depth (first rules.binary_operator) (pieces bytes.now) }
{
    let kind = kind(depth, bytes);
    kind == 299
        || kind == 301
        || kind == 298
        || kind == 303
        || kind == 293
        || kind == 350
        || kind == 294
        || kind == 380
        || kind == 316
        || kind == 318
        || kind == 317
        || kind == 289
}

/// An operator of one byte.
fn single(depth: u16, sign: u8, op: CBinary, bytes: &[u8]) -> Result<(CBinary, &[u8]), Fault<'_>>
    requires { is_mark sign ≡ true }
    ensures { Gives itself result (reads_at depth (rules.operator sign op) (pieces bytes.now)) }
{
    let rest = mark(depth, sign, bytes)?;
    Ok((op, rest))
}

/// An operator of one byte, or one that is longer by a byte.
fn longer(
    depth: u16,
    sign: u8,
    short: CBinary,
    next: u8,
    long: CBinary,
    bytes: &[u8],
) -> Result<(CBinary, &[u8]), Fault<'_>>
    requires sign { is_mark sign ≡ true }
    requires next { is_mark next ≡ true }
    ensures { Gives itself result (reads_at depth (rules.longer sign short (rules.operator next long)) (pieces bytes.now)) }
{
    let rest = mark(depth, sign, bytes)?;
    if is_next(depth, 256 + usize::from(next), rest) {
        return single(depth, next, long, rest);
    }
    Ok((short, rest))
}

/// `<`, `<<`, `<=`, or with `>`.
fn comparison(
    depth: u16,
    sign: u8,
    short: CBinary,
    shift: CBinary,
    equal: CBinary,
    bytes: &[u8],
) -> Result<(CBinary, &[u8]), Fault<'_>>
    requires { is_mark sign ≡ true }
    ensures { Gives itself result (reads_at depth (rules.longer sign short (choice (rules.operator sign shift) (rules.operator 61 equal))) (pieces bytes.now)) }
{
    let rest = mark(depth, sign, bytes)?;
    if is_next(depth, 256 + usize::from(sign), rest) {
        return single(depth, sign, shift, rest);
    }
    if is_next(depth, 317, rest) {
        return single(depth, b'=', equal, rest);
    }
    Ok((short, rest))
}

/// `==` or `!=`.
fn equality(depth: u16, sign: u8, op: CBinary, bytes: &[u8]) -> Result<(CBinary, &[u8]), Fault<'_>>
    requires { is_mark sign ≡ true }
    ensures { Gives itself result (reads_at depth (after (symbols.mark sign) (rules.operator 61 op)) (pieces bytes.now)) }
{
    let rest = mark(depth, sign, bytes)?;
    single(depth, b'=', op, rest)
}

/// Takes an operator.
#[tactic(auto, unfolding(c_grammar::specs::ExpressionRules::binary_operator))]
pub fn operator(depth: u16, bytes: &[u8]) -> Result<(CBinary, &[u8]), Fault<'_>>
    ensures { Gives itself result (reads_at depth rules.binary_operator (pieces bytes.now)) }
{
    let kind = kind(depth, bytes);
    if kind == 299 {
        single(depth, b'+', CBinary::Add, bytes)
    } else if kind == 301 {
        single(depth, b'-', CBinary::Sub, bytes)
    } else if kind == 298 {
        single(depth, b'*', CBinary::Mul, bytes)
    } else if kind == 303 {
        single(depth, b'/', CBinary::Div, bytes)
    } else if kind == 293 {
        single(depth, b'%', CBinary::Rem, bytes)
    } else if kind == 350 {
        single(depth, b'^', CBinary::Xor, bytes)
    } else if kind == 294 {
        longer(depth, b'&', CBinary::And, b'&', CBinary::AndAlso, bytes)
    } else if kind == 380 {
        longer(depth, b'|', CBinary::Or, b'|', CBinary::OrElse, bytes)
    } else if kind == 316 {
        comparison(depth, b'<', CBinary::Lt, CBinary::Shl, CBinary::Le, bytes)
    } else if kind == 318 {
        comparison(depth, b'>', CBinary::Gt, CBinary::Shr, CBinary::Ge, bytes)
    } else if kind == 317 {
        equality(depth, b'=', CBinary::Eq, bytes)
    } else {
        equality(depth, b'!', CBinary::Ne, bytes)
    }
}
