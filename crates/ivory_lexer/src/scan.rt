//! Finds the longest piece at the front of a text, and its length.

ghost use Rattle.std.specs.Prelude.{◌≡◌, ◌≤◌, ◌<◌, ◌-◌, ◌^◌, length, take, drop, IfSome, option_map};
ghost use Rattle.ivory_lexer.specs.Table as table;
ghost use Rattle.ivory_lexer.specs.Scanning as scanning;

use crate::byte;
use crate::number::number_of;
use crate::piece::Piece;
use crate::symbol::{double_mark, single_mark};

/// Where the first `*/` ends.
fn first_close(body: &[u8]) -> Option<usize>
    ensures value { result ≡ table.first_close body.now }
    ensures within { IfSome result (λ n. n ≤ length body.now) }
{
    for at in 1..body.len() {
        if body[at - 1] == b'*' && body[at] == b'/' {
            return Some(at + 1);
        }
    }
    None
}

fn comment(text: &[u8]) -> Option<(Piece, usize)>
    requires { length text.now < 2 ^ 32 }
    ensures { result ≡ scanning.scan_comment text.now }
{
    match text {
        [b'-', b'-', line @ ..] => Some((Piece::Dropped, byte::line_len(line) + 2)),
        [b'/', b'*', body @ ..] => Some(match first_close(body) {
            Some(len) => (Piece::Dropped, len + 2),
            None => (Piece::OpenComment, body.len() + 2),
        }),
        _ => None,
    }
}

#[tactic(auto, using(crate::proofs::Runs::hex_digits_pass))]
/// A number of a `0x` and hexadecimal digits.
fn hexadecimal(text: &[u8]) -> Option<(Piece, usize)>
    requires { length text.now < 2 ^ 32 }
    ensures { result ≡ scanning.scan_hex text.now }
{
    let [b'0', b'x', digits @ ..] = text else {
        return None;
    };
    let len = byte::hex_len(digits);
    if len == 0 {
        return None;
    }
    Some((Piece::Number(number_of(16, &digits[..len])), len + 2))
}

#[tactic(auto, using(crate::proofs::Runs::decimal_digits_pass))]
fn decimal(text: &[u8]) -> (Piece, usize)
    ensures { result ≡ scanning.scan_decimal text.now }
{
    let len = byte::decimal_len(text);
    (Piece::Number(number_of(10, &text[..len])), len)
}

fn symbol(text: &[u8]) -> Option<(Piece, usize)>
    ensures { result ≡ scanning.scan_symbol text.now }
{
    if let [first, second, ..] = text {
        if let Some(mark) = double_mark(*first, *second) {
            return Some((Piece::Mark(mark), 2));
        }
    }
    let (first, _) = text.split_first()?;
    Some((Piece::Mark(single_mark(*first)?), 1))
}

/// The longest piece at the front of a text, and its length.
pub fn longest_piece(text: &[u8]) -> Option<(Piece, usize)>
    requires { length text.now < 2 ^ 32 }
    ensures value { result ≡ scanning.scan text.now }
    ensures within { IfSome result (λ w. w.1 ≤ length text.now) }
{
    scan(text)
}

/// What `longest_piece` answers, by the first bytes.
fn scan(text: &[u8]) -> Option<(Piece, usize)>
    requires { length text.now < 2 ^ 32 }
    ensures { result ≡ scanning.scan text.now }
{
    let (first, rest) = text.split_first()?;
    if byte::begins_name(*first) {
        return Some((Piece::Name, byte::name_len(rest) + 1));
    }
    if byte::is_white(*first) {
        return Some((Piece::Dropped, byte::white_len(rest) + 1));
    }
    if first.is_ascii_digit() {
        return Some(match hexadecimal(text) {
            Some(found) => found,
            None => decimal(text),
        });
    }
    match comment(text) {
        Some(found) => Some(found),
        None => symbol(text),
    }
}
