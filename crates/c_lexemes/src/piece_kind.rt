//! The kinds of pieces, as the grammar numbers them. A byte is of the kind 256 more than itself.

ghost use Rattle.std.specs.Prelude.{◌≡◌, ◌<◌, ◌∷◌, []};
ghost use Rattle.reading.specs.Row.{starts};
ghost use Rattle.grammars.specs.Kinds.{holds};
ghost use Rattle.grammars.specs.Reader.{among, next};
ghost use Rattle.c_lexemes.specs.Levels.{begins_with};
ghost use Rattle.c_grammar.specs.Pieces.{pieces};
ghost use Rattle.c_grammar.specs.Kinds as kinds;

use crate::scan::{blanks, word};
use crate::words::word_kind;

pub const IF: usize = 1;

pub const FOR: usize = 3;

pub const BREAK: usize = 4;

pub const RETURN: usize = 5;

pub const STATIC: usize = 6;

pub const EXTERN: usize = 7;

pub const VOID: usize = 8;

pub const STRUCT: usize = 9;

pub const CONST: usize = 10;

pub const NAME: usize = 20;

pub const NUMBER: usize = 21;

pub const SCALAR: usize = 22;

pub const ONE_BLANK: usize = 50;

pub const INDENTATION: usize = 51;

pub const OUTDENTATION: usize = 52;

pub const OTHER: usize = 60;

pub const BANG: usize = 289;

pub const AMPERSAND: usize = 294;

pub const OPEN_PAREN: usize = 296;

pub const STAR: usize = 298;

pub const COMMA: usize = 300;

pub const MINUS: usize = 301;

pub const DOT: usize = 302;

pub const OPEN_SQUARE: usize = 347;

pub const OPEN_BRACE: usize = 379;

pub const TILDE: usize = 382;

/// The blanks before a statement.
#[tactic(auto, using(crate::proofs::Depths::line_blanks_is))]
fn line_blanks(depth: u16) -> usize
    ensures { result ≡ kinds.line_blanks depth }
{
    if depth == 0 {
        2
    } else {
        2 * usize::from(depth)
    }
}

/// The blanks before the brace that closes a block.
#[tactic(auto, using(crate::proofs::Depths::closing_blanks_is))]
fn closing_blanks(depth: u16) -> usize
    ensures { result ≡ kinds.closing_blanks depth }
{
    if depth <= 1 {
        4
    } else {
        2 * usize::from(depth) - 2
    }
}

/// The kind of so many blanks.
pub fn blanks_kind(depth: u16, count: usize) -> usize
    ensures { result ≡ kinds.blanks_kind depth count }
{
    if count == 1 {
        ONE_BLANK
    } else if count == line_blanks(depth) {
        INDENTATION
    } else if count == closing_blanks(depth) {
        OUTDENTATION
    } else {
        OTHER
    }
}

/// The kind of the next piece, or 0 where there is none.
#[tactic(auto, using(crate::proofs::Leaves::next_word, crate::proofs::Leaves::next_blanks))]
pub fn kind(depth: u16, bytes: &[u8]) -> usize
    ensures { result ≡ next kinds.lexicon depth (pieces bytes.now) }
{
    match bytes {
        [] => 0,
        [first, ..] => {
            if let Some((word, _)) = word(bytes) {
                return word_kind(word);
            }
            if let Some((count, _)) = blanks(bytes) {
                return blanks_kind(depth, count);
            }
            256 + usize::from(*first)
        }
    }
}

/// Whether the next piece is of this kind.
pub fn is_next(depth: u16, wanted: usize, bytes: &[u8]) -> bool
    ensures { result ≡ begins_with depth (wanted ∷ []) (pieces bytes.now) }
{
    kind(depth, bytes) == wanted
}

/// Whether a list goes on: the next piece is of this kind.
#[tactic(auto, using(crate::proofs::Turned::starts_kind))]
pub fn goes_on(depth: u16, wanted: usize, bytes: &[u8]) -> bool
    requires { 0 < wanted }
    ensures { result ≡ starts (among kinds.lexicon depth (wanted ∷ [])) (pieces bytes.now) }
{
    is_next(depth, wanted, bytes)
}

/// Whether a piece of this kind begins an operand that is no expression in parentheses.
pub fn is_operand(kind: usize) -> bool
    ensures { result ≡ holds (21 ∷ 20 ∷ []) kind }
{
    kind == NUMBER || kind == NAME
}

/// Whether a piece of this kind begins an expression.
pub fn is_expression(kind: usize) -> bool
    ensures { result ≡ holds (21 ∷ 20 ∷ 296 ∷ []) kind }
{
    kind == NUMBER || kind == NAME || kind == OPEN_PAREN
}

/// Whether a piece of this kind begins a unary operator.
pub fn is_unary(kind: usize) -> bool
    ensures { result ≡ holds (301 ∷ 382 ∷ 289 ∷ []) kind }
{
    kind == MINUS || kind == TILDE || kind == BANG
}

/// Whether a piece of this kind begins a type.
pub fn is_type(kind: usize) -> bool
    ensures { result ≡ holds (22 ∷ 9 ∷ []) kind }
{
    kind == SCALAR || kind == STRUCT
}

/// Whether a piece of this kind begins what is behind a type, where a pointer or a value that stays is declared.
pub fn is_star_or_const(kind: usize) -> bool
    ensures { result ≡ holds (298 ∷ 10 ∷ []) kind }
{
    kind == STAR || kind == CONST
}

/// Whether a piece of this kind begins a function that gives no pointer to a struct.
pub fn is_plain_function(kind: usize) -> bool
    ensures { result ≡ holds (8 ∷ 22 ∷ []) kind }
{
    kind == VOID || kind == SCALAR
}
