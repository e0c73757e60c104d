//! What a word is: a name, a scalar type, or a keyword.

ghost use Rattle.std.specs.Prelude.{◌≡◌, codes, ◌∷◌, [], true};
ghost use Rattle.std.specs.List.{list_all, list_any};
ghost use Rattle.iv_words.specs.Words.{same_word};
ghost use Rattle.c_text.specs.Identifiers as text;
ghost use Rattle.c_grammar.specs.Kinds as kinds;
ghost use Rattle.c_lexemes.specs.Words as words;

use crate::digits::number_of;
use crate::piece_kind::{NAME, NUMBER, OTHER, SCALAR};
use crate::scan::is_letter;
use c_ast::{CScalar, Suffix};
use iv_words::IntKind;

/// A name has at most so many bytes.
const LONGEST_NAME: usize = 31;

/// The words that are written out in the subset: keywords, and those of the fixed lines.
#[derive(Clone, Copy, Drop)]
pub enum Fixed {
    If,
    Else,
    For,
    Break,
    Return,
    Static,
    Extern,
    Void,
    Struct,
    Const,
    Include,
    Stdint,
    Stdbool,
    H,
    IvoryStop,
    Uint32,
}

/// Whether the word is this text. Their first bytes tell most words apart.
fn is_word(word: &[u8], text: &[u8]) -> bool
    ensures { result ≡ same_word word.now text.now }
{
    match (word, text) {
        ([a, ..], [b, ..]) => a == b && word == text,
        _ => word == text,
    }
}

/// Whether the word is one of these.
macro_rules! is_among {
    ($word:expr, $($text:literal,)*) => {{
        $(
            if is_word($word, $text) {
                return true;
            }
        )*
        false
    }};
}

fn is_reserved_of_two(word: &[u8]) -> bool
    ensures { result ≡ list_any (same_word word.now) words.of_two }
{
    is_among!(word, b"do", b"if",)
}

fn is_reserved_of_three(word: &[u8]) -> bool
    ensures { result ≡ list_any (same_word word.now) words.of_three }
{
    is_among!(word, b"for", b"int",)
}

fn is_reserved_of_four(word: &[u8]) -> bool
    ensures { result ≡ list_any (same_word word.now) words.of_four }
{
    is_among!(
        word, b"auto", b"case", b"char", b"else", b"enum", b"goto", b"long", b"void", b"bool",
        b"true",
    )
}

fn is_reserved_of_five(word: &[u8]) -> bool
    ensures { result ≡ list_any (same_word word.now) words.of_five }
{
    is_among!(
        word, b"break", b"const", b"float", b"short", b"union", b"while", b"_Bool", b"false",
    )
}

fn is_reserved_of_six(word: &[u8]) -> bool
    ensures { result ≡ list_any (same_word word.now) words.of_six }
{
    is_among!(
        word, b"double", b"extern", b"inline", b"return", b"signed", b"sizeof", b"static",
        b"struct", b"switch", b"int8_t",
    )
}

fn is_reserved_of_seven(word: &[u8]) -> bool
    ensures { result ≡ list_any (same_word word.now) words.of_seven }
{
    is_among!(
        word, b"default", b"typedef", b"uint8_t", b"int16_t", b"int32_t", b"int64_t",
    )
}

fn is_reserved_of_eight(word: &[u8]) -> bool
    ensures { result ≡ list_any (same_word word.now) words.of_eight }
{
    is_among!(
        word,
        b"continue",
        b"register",
        b"restrict",
        b"unsigned",
        b"volatile",
        b"_Complex",
        b"uint16_t",
        b"uint32_t",
        b"uint64_t",
    )
}

fn is_reserved_of_ten(word: &[u8]) -> bool
    ensures { result ≡ list_any (same_word word.now) words.of_ten }
{
    is_among!(word, b"_Imaginary",)
}

/// Whether the word is a keyword, or a name that the headers define. It is sought among those of its length.
#[tactic(auto, using(crate::proofs::Reserved::by_length))]
fn is_reserved(word: &[u8]) -> bool
    ensures { result ≡ text.is_reserved word.now }
{
    let length = word.len();
    if length == 2 {
        is_reserved_of_two(word)
    } else if length == 3 {
        is_reserved_of_three(word)
    } else if length == 4 {
        is_reserved_of_four(word)
    } else if length == 5 {
        is_reserved_of_five(word)
    } else if length == 6 {
        is_reserved_of_six(word)
    } else if length == 7 {
        is_reserved_of_seven(word)
    } else if length == 8 {
        is_reserved_of_eight(word)
    } else if length == 10 {
        is_reserved_of_ten(word)
    } else {
        false
    }
}

pub fn begins_as_identifier(word: &[u8]) -> bool
    ensures { result ≡ text.begins_as_identifier word.now }
{
    match word {
        [first, ..] => is_letter(*first),
        [] => false,
    }
}

/// Whether the word is a name.
pub fn is_name(word: &[u8]) -> bool
    requires { list_all text.is_identifier_byte word.now ≡ true }
    ensures { result ≡ kinds.is_name word.now }
{
    begins_as_identifier(word) && word.len() <= LONGEST_NAME && !is_reserved(word)
}

/// The type that the word names.
pub fn scalar_of(word: &[u8]) -> Option<CScalar>
    ensures { result ≡ kinds.word_scalar word.now }
{
    if is_word(word, b"bool") {
        Some(CScalar::Truth)
    } else if is_word(word, b"uint8_t") {
        Some(CScalar::Int(IntKind::U8))
    } else if is_word(word, b"uint16_t") {
        Some(CScalar::Int(IntKind::U16))
    } else if is_word(word, b"uint32_t") {
        Some(CScalar::Int(IntKind::U32))
    } else if is_word(word, b"uint64_t") {
        Some(CScalar::Int(IntKind::U64))
    } else if is_word(word, b"int8_t") {
        Some(CScalar::Int(IntKind::I8))
    } else if is_word(word, b"int16_t") {
        Some(CScalar::Int(IntKind::I16))
    } else if is_word(word, b"int32_t") {
        Some(CScalar::Int(IntKind::I32))
    } else if is_word(word, b"int64_t") {
        Some(CScalar::Int(IntKind::I64))
    } else {
        None
    }
}

/// What stands behind the digits of a number.
pub fn suffix_of(word: &[u8]) -> Option<Suffix>
    ensures { result ≡ kinds.suffix_of word.now }
{
    if is_word(word, b"") {
        Some(Suffix::Plain)
    } else if is_word(word, b"u") {
        Some(Suffix::U)
    } else if is_word(word, b"ll") {
        Some(Suffix::Ll)
    } else if is_word(word, b"ull") {
        Some(Suffix::Ull)
    } else {
        None
    }
}

fn fixed_text(wanted: Fixed) -> &'static [u8]
    ensures { result.now ≡ words.fixed_text wanted }
{
    match wanted {
        Fixed::If => b"if",
        Fixed::Else => b"else",
        Fixed::For => b"for",
        Fixed::Break => b"break",
        Fixed::Return => b"return",
        Fixed::Static => b"static",
        Fixed::Extern => b"extern",
        Fixed::Void => b"void",
        Fixed::Struct => b"struct",
        Fixed::Const => b"const",
        Fixed::Include => b"include",
        Fixed::Stdint => b"stdint",
        Fixed::Stdbool => b"stdbool",
        Fixed::H => b"h",
        Fixed::IvoryStop => b"ivory_stop",
        Fixed::Uint32 => b"uint32_t",
    }
}

/// Whether the word is the one that is wanted.
pub fn is_fixed(word: &[u8], wanted: Fixed) -> bool
    ensures { result ≡ same_word word.now (words.fixed_text wanted) }
{
    is_word(word, fixed_text(wanted))
}

/// The place of a keyword of the subset among them, counted from 1; 60 for another word.
fn keyword_kind(word: &[u8]) -> usize
    ensures { result ≡ kinds.place_in 1 kinds.keywords_used word.now }
{
    if is_word(word, b"if") {
        1
    } else if is_word(word, b"else") {
        2
    } else if is_word(word, b"for") {
        3
    } else if is_word(word, b"break") {
        4
    } else if is_word(word, b"return") {
        5
    } else if is_word(word, b"static") {
        6
    } else if is_word(word, b"extern") {
        7
    } else if is_word(word, b"void") {
        8
    } else if is_word(word, b"struct") {
        9
    } else if is_word(word, b"const") {
        10
    } else {
        OTHER
    }
}

/// The kind of a word.
pub fn word_kind(word: &[u8]) -> usize
    requires { list_all text.is_identifier_byte word.now ≡ true }
    ensures { result ≡ kinds.word_kind word.now }
{
    if !begins_as_identifier(word) {
        return if number_of(word).is_some() {
            NUMBER
        } else {
            OTHER
        };
    }
    if is_name(word) {
        NAME
    } else if scalar_of(word).is_some() {
        SCALAR
    } else {
        keyword_kind(word)
    }
}
