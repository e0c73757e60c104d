//! Takes the next piece, where it is the one that is wanted.

ghost use Rattle.std.specs.Prelude.{◌≡◌, ◌+◌, ◌<◌, ◌≤◌, Some, true, IfOk};
ghost use Rattle.grammars.specs.Grammar.{token};
ghost use Rattle.c_grammar.specs.Pieces as piece;
ghost use Rattle.c_grammar.specs.Pieces.{Piece, pieces};
ghost use Rattle.c_grammar.specs.Kinds as kinds;
ghost use Rattle.c_grammar.specs.Symbols as symbols;
ghost use Rattle.c_grammar.specs.TypeRules as types;
ghost use Rattle.c_grammar.specs.UnitRules.{length_rule};
ghost use Rattle.c_lexemes.specs.Levels.{most_open, is_mark, opening, reads_at};
ghost use Rattle.c_lexemes.specs.Gives.{Gives, Passes, itself};
ghost use Rattle.c_lexemes.specs.Words as words;

use crate::digits::{length_of, number_of};
use crate::fault::Fault;
use crate::piece_kind::{INDENTATION, OUTDENTATION, blanks_kind};
use crate::scan::{blanks, word};
use crate::words::{Fixed, is_fixed, is_name, scalar_of};
use c_ast::{CScalar, Suffix};
use iv_words::Word;
use std::alloc::Global;

/// At most so many brackets are open.
pub const MOST_OPEN: u16 = 300;

/// Takes a name.
#[tactic(auto, using(crate::proofs::Leaves::reads_name, crate::proofs::Leaves::reads_no_name, crate::proofs::Leaves::reads_name_none))]
pub fn name(alloc: Global, _depth: u16, bytes: &[u8]) -> Result<(Word, &[u8]), Fault<'_>>
    ensures { Gives itself result (reads_at _depth types.name (pieces bytes.now)) }
{
    match word(bytes) {
        Some((word, rest)) => {
            if is_name(word) {
                Ok((Word::from_slice(alloc, word)?, rest))
            } else {
                Err(Fault::Unexpected(bytes))
            }
        }
        None => Err(Fault::Unexpected(bytes)),
    }
}

/// Takes the name of a scalar type.
#[tactic(auto, using(crate::proofs::Leaves::reads_scalar, crate::proofs::Leaves::reads_no_scalar, crate::proofs::Leaves::reads_scalar_none))]
pub fn scalar(_depth: u16, bytes: &[u8]) -> Result<(CScalar, &[u8]), Fault<'_>>
    ensures { Gives itself result (reads_at _depth types.scalar (pieces bytes.now)) }
{
    match word(bytes) {
        Some((word, rest)) => match scalar_of(word) {
            Some(scalar) => Ok((scalar, rest)),
            None => Err(Fault::Unexpected(bytes)),
        },
        None => Err(Fault::Unexpected(bytes)),
    }
}

/// Takes a number.
#[tactic(auto, using(crate::proofs::Leaves::reads_number, crate::proofs::Leaves::reads_no_number, crate::proofs::Leaves::reads_number_none))]
pub fn number(_depth: u16, bytes: &[u8]) -> Result<((u64, Suffix), &[u8]), Fault<'_>>
    ensures { Gives itself result (reads_at _depth (token kinds.number_word kinds.number_of) (pieces bytes.now)) }
{
    match word(bytes) {
        Some((word, rest)) => match number_of(word) {
            Some(number) => Ok((number, rest)),
            None => Err(Fault::Unexpected(bytes)),
        },
        None => Err(Fault::Unexpected(bytes)),
    }
}

/// Takes the length of an array.
#[tactic(auto, using(crate::proofs::Leaves::reads_length, crate::proofs::Leaves::reads_no_length, crate::proofs::Leaves::reads_length_none))]
pub fn length(_depth: u16, bytes: &[u8]) -> Result<(u32, &[u8]), Fault<'_>>
    ensures { Gives itself result (reads_at _depth length_rule (pieces bytes.now)) }
{
    match word(bytes) {
        Some((word, rest)) => match length_of(word) {
            Some(length) => Ok((length, rest)),
            None => Err(Fault::Unexpected(bytes)),
        },
        None => Err(Fault::Unexpected(bytes)),
    }
}

/// Takes a word that is written out.
#[tactic(auto, using(crate::proofs::Leaves::reads_fixed, crate::proofs::Leaves::reads_no_fixed, crate::proofs::Leaves::reads_fixed_none))]
pub fn fixed(_depth: u16, wanted: Fixed, bytes: &[u8]) -> Result<&[u8], Fault<'_>>
    ensures { Passes (piece.Word (words.fixed_text wanted)) result (reads_at _depth (token (words.fixed_kind wanted) (kinds.exactly (piece.Word (words.fixed_text wanted)))) (pieces bytes.now)) }
{
    match word(bytes) {
        Some((word, rest)) => {
            if is_fixed(word, wanted) {
                Ok(rest)
            } else {
                Err(Fault::Unexpected(bytes))
            }
        }
        None => Err(Fault::Unexpected(bytes)),
    }
}

/// Takes one blank.
#[tactic(auto, using(crate::proofs::Leaves::reads_blank, crate::proofs::Leaves::reads_no_blank, crate::proofs::Leaves::reads_blank_none))]
pub fn blank(_depth: u16, bytes: &[u8]) -> Result<&[u8], Fault<'_>>
    ensures { Passes (piece.Blanks 1) result (reads_at _depth symbols.blank (pieces bytes.now)) }
{
    match blanks(bytes) {
        Some((count, rest)) => {
            if count == 1 {
                Ok(rest)
            } else {
                Err(Fault::Unexpected(bytes))
            }
        }
        None => Err(Fault::Unexpected(bytes)),
    }
}

/// Takes the blanks before a statement.
#[tactic(auto, using(crate::proofs::Leaves::reads_line_none, crate::proofs::Leaves::reads_other_kind, crate::proofs::Depths::reads_indentation))]
pub fn indentation(depth: u16, bytes: &[u8]) -> Result<&[u8], Fault<'_>>
    ensures { Passes (piece.Blanks (kinds.line_blanks depth)) result (reads_at depth (token {A = Piece} kinds.indentation Some) (pieces bytes.now)) }
{
    match blanks(bytes) {
        Some((count, rest)) => {
            if blanks_kind(depth, count) == INDENTATION {
                Ok(rest)
            } else {
                Err(Fault::Unexpected(bytes))
            }
        }
        None => Err(Fault::Unexpected(bytes)),
    }
}

/// Takes the blanks before the brace that closes a block.
#[tactic(auto, using(crate::proofs::Leaves::reads_line_none, crate::proofs::Leaves::reads_other_kind, crate::proofs::Depths::reads_outdentation))]
pub fn outdentation(depth: u16, bytes: &[u8]) -> Result<&[u8], Fault<'_>>
    ensures { Passes (piece.Blanks (kinds.closing_blanks depth)) result (reads_at depth (token {A = Piece} kinds.outdentation Some) (pieces bytes.now)) }
{
    match blanks(bytes) {
        Some((count, rest)) => {
            if blanks_kind(depth, count) == OUTDENTATION {
                Ok(rest)
            } else {
                Err(Fault::Unexpected(bytes))
            }
        }
        None => Err(Fault::Unexpected(bytes)),
    }
}

/// Takes a byte that is no letter, digit, underscore or blank.
#[tactic(auto, using(crate::proofs::Leaves::reads_mark, crate::proofs::Leaves::reads_no_mark))]
pub fn mark(_depth: u16, wanted: u8, bytes: &[u8]) -> Result<&[u8], Fault<'_>>
    requires { is_mark wanted ≡ true }
    ensures { Passes (piece.Byte wanted) result (reads_at _depth (symbols.mark wanted) (pieces bytes.now)) }
{
    match bytes {
        [first, rest @ ..] => {
            if *first == wanted {
                Ok(rest)
            } else {
                Err(Fault::Unexpected(bytes))
            }
        }
        [] => Err(Fault::Unexpected(bytes)),
    }
}

/// Takes a comma and the blank behind it.
pub fn comma(depth: u16, bytes: &[u8]) -> Result<&[u8], Fault<'_>>
    ensures { Passes (piece.Blanks 1) result (reads_at depth symbols.comma (pieces bytes.now)) }
{
    let rest = mark(depth, b',', bytes)?;
    blank(depth, rest)
}

/// Takes a bracket.
#[tactic(auto, using(crate::proofs::Leaves::reads_close, crate::proofs::Leaves::reads_no_close))]
pub fn close(_depth: u16, bracket: u8, bytes: &[u8]) -> Result<&[u8], Fault<'_>>
    requires { is_mark bracket ≡ true }
    ensures { Passes (piece.Byte bracket) result (reads_at _depth (token {A = Piece} (256 + bracket) Some) (pieces bytes.now)) }
{
    match bytes {
        [first, rest @ ..] => {
            if *first == bracket {
                Ok(rest)
            } else {
                Err(Fault::Unexpected(bytes))
            }
        }
        [] => Err(Fault::Unexpected(bytes)),
    }
}

/// Takes an opening bracket, and gives how many are open behind it.
#[tactic(auto, using(crate::proofs::Opening::opens, crate::proofs::Opening::opens_no_more, crate::proofs::Opening::opens_not, crate::proofs::Opening::opens_faults))]
pub fn open(depth: u16, bracket: u8, bytes: &[u8]) -> Result<(u16, &[u8]), Fault<'_>>
    requires { is_mark bracket ≡ true }
    ensures opens { Gives itself result (opening depth (256 + bracket) (pieces bytes.now)) }
    ensures deeper { IfOk result (λ x. (x.0 ≡ depth + 1) × (depth < most_open)) }
{
    let rest = close(depth, bracket, bytes)?;
    if depth >= MOST_OPEN {
        return Err(Fault::TooDeep(bytes));
    }
    Ok((depth + 1, rest))
}
