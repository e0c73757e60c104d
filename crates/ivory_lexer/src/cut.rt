//! Cuts a text into tokens, piece by piece.

ghost use Rattle.std.specs.Prelude.{◌≡◌, ◌≤◌, ◌<◌, ◌+◌, ◌++◌, ◌^◌, ℕ, List, length, take, drop, IfOk, OnOk};
ghost use Rattle.ivory_lexer.specs.Answers.{Answers, IfFault};
ghost use Rattle.ivory_lexer.specs.Limits.{source_limit};
ghost use Rattle.ivory_lexer.specs.Scanning.{IsTaken, tokens_of_piece};
ghost use Rattle.ivory_lexer.specs.Texts.{gives, TokensOf, LexFaultOf, ExactlyOne};
ghost use Rattle.ivory_lexer.specs.Tokens.{InOrder};
ghost use Rattle.ivory_lexer.specs.declared.fault.LexFault.{LexFault};
ghost use Rattle.ivory_lexer.specs.declared.piece.Piece.TheVariants as piece_is;
ghost use Rattle.ivory_lexer.specs.declared.token.Token.{Token};

use crate::fault::LexFault;
use crate::keyword::key_of;
use crate::piece::Piece;
use crate::scan::longest_piece;
use crate::token::{Token, TokenKind};
use iv_words::{Memory, Seq, Span, Word};
use std::alloc::Global;

/// A module's text has at most so many bytes.
pub const SOURCE_LIMIT: u64 = 262_144;

/// The most bytes that a name has.
const LONGEST_NAME: usize = 28;

/// The token of a name: a keyword, or the name itself.
fn name_kind(alloc: Global, name: &[u8], at: u32) -> Result<Option<TokenKind>, LexFault>
    ensures { Answers result (gives at name.now piece_is.Name) }
{
    if name.len() > LONGEST_NAME {
        return Err(LexFault::LongName(at));
    }
    if let Some(key) = key_of(name) {
        return Ok(Some(TokenKind::Key(key)));
    }
    Ok(Some(TokenKind::Name(Word::from_slice(alloc, name)?)))
}

/// What a piece of these bytes gives at its place: nothing, a token, or a fault.
fn kind_of(
    alloc: Global,
    piece: Piece,
    front: &[u8],
    at: u32,
) -> Result<Option<TokenKind>, LexFault>
    ensures { Answers result (gives at front.now piece) }
{
    match piece {
        Piece::Dropped => Ok(None),
        Piece::OpenComment => Err(LexFault::OpenComment(at)),
        Piece::Name => name_kind(alloc, front, at),
        Piece::Number(Some(value)) => Ok(Some(TokenKind::Number(value))),
        Piece::Number(None) => Err(LexFault::BigLiteral(at)),
        Piece::Mark(mark) => Ok(Some(TokenKind::Mark(mark))),
    }
}

/// Takes the longest piece at the front of a text: adds its token to the list, and answers its length.
fn take_piece(
    alloc: Global,
    tokens: &mut Seq<Token>,
    text: &[u8],
    at: u32,
) -> Result<usize, LexFault>
    requires some { 0 < length text.now }
    requires room { at + length text.now < 2 ^ 32 }
    ensures taken { IfOk result (λ n. IsTaken at text.now n tokens.old tokens.new) }
    ensures fault { IfFault result (λ why. LexFaultOf at text.now why) }
{
    let Some((piece, len)) = longest_piece(text) else {
        return Err(LexFault::BadByte(at));
    };
    let found = match kind_of(alloc, piece, &text[..len], at) {
        Ok(found) => found,
        Err(why) => return Err(why),
    };
    add_token(tokens, found, at, len as u32)?;
    Ok(len)
}

/// Adds the token of a piece, where it has one.
fn add_token(
    tokens: &mut Seq<Token>,
    found: Option<TokenKind>,
    at: u32,
    len: u32,
) -> Result<(), Memory>
    requires { at + len < 2 ^ 32 }
    ensures { OnOk result (tokens.new ≡ tokens.old ++ tokens_of_piece found at len) }
{
    let Some(kind) = found else {
        return Ok(());
    };
    let span = Span {
        start: at,
        end: at + len,
    };
    tokens.push(Token { kind, span })
}

/// The tokens of a text, in order, or its first fault.
fn cut(alloc: Global, text: &[u8]) -> Result<Seq<Token>, LexFault>
    requires { length text.now < 2 ^ 32 }
    ensures tokens { IfOk result (λ ts. TokensOf 0 text.now ts) }
    ensures fault { IfFault result (λ why. LexFaultOf 0 text.now why) }
{
    let mut tokens = Seq::new(alloc);
    let mut at = 0;
    while at < text.len() {
        at += take_piece(alloc, &mut tokens, &text[at..], at as u32)?;
    }
    Ok(tokens)
}

/// Cuts a text into its tokens.
///
/// The tokens stand in the order of the text, each with the bytes that it stands on; white space and comments are left
/// out. A fault names the place of its first byte. A text of any bytes has either tokens or a fault, and one of them only.
///
/// # Errors
///
/// The text's first fault, or want of memory.
pub fn lex(alloc: Global, text: &[u8]) -> Result<Seq<Token>, LexFault>
    requires { length text.now ≤ source_limit }
    ensures tokens { IfOk result (λ ts. TokensOf 0 text.now ts) }
    ensures each_token { (ts : List Token) → TokensOf 0 text.now ts → Answers result (Ok ts) }
    ensures fault { IfFault result (λ why. LexFaultOf 0 text.now why) }
    ensures each_fault { (why : LexFault) → LexFaultOf 0 text.now why → Answers result (Err why) }
    ensures in_order { IfOk result (λ ts. InOrder 0 ts (length text.now)) }
    ensures few { IfOk result (λ ts. length ts ≤ length text.now) }
{
    cut(alloc, text)
}

/// Each text has one list of tokens and no fault, or one fault and no tokens.
pub fn reads_in_one_way()
    ensures { (text : List ℕ) → ExactlyOne text }
{}
