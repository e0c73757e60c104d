//! The numbers that words write.

ghost use Rattle.std.specs.Prelude.{◌≡◌, ◌≤◌, ◌<◌, ◌+◌, ◌-◌, ◌*◌, ◌^◌, IfSome, true};
ghost use Rattle.std.specs.List.{list_all};
ghost use Rattle.c_text.specs.Identifiers.{is_digit};
ghost use Rattle.c_grammar.specs.Kinds as kinds;
ghost use Rattle.c_lexemes.specs.Numbers.{below_limit};

use crate::scan::digits_length;
use crate::words::suffix_of;
use c_ast::Suffix;

/// The number with one more digit at its end, where it is below 2^64.
fn with_digit(n: u64, digit: u8) -> Option<u64>
    requires { 48 ≤ digit }
    ensures value { result ≡ below_limit (n * 10 + (digit - 48)) }
    ensures small { IfSome result (λ m. m < 2 ^ 64) }
{
    n.checked_mul(10)?.checked_add(u64::from(digit - b'0'))
}

/// The number that digits write, where it is below 2^64.
fn value_of(digits: &[u8]) -> Option<u64>
    requires { list_all is_digit digits.now ≡ true }
    ensures { result ≡ below_limit (kinds.value_behind 0 digits.now) }
{
    let mut n = 0;
    for digit in digits {
        let Some(next) = with_digit(n, *digit) else {
            return None;
        };
        n = next;
    }
    Some(n)
}

/// Some digits, and no 0 before others.
fn is_plain(digits: &[u8]) -> bool
    ensures { result ≡ kinds.is_plain digits.now }
{
    match digits {
        [] => false,
        [_] => true,
        [first, _, ..] => *first != b'0',
    }
}

/// The number that the word writes, with its suffix.
pub fn number_of(word: &[u8]) -> Option<(u64, Suffix)>
    ensures { result ≡ kinds.word_number word.now }
{
    let (digits, behind) = word.split_at(digits_length(word));
    if !is_plain(digits) {
        return None;
    }
    let Some(value) = value_of(digits) else {
        return None;
    };
    match suffix_of(behind) {
        Some(suffix) => Some((value, suffix)),
        None => None,
    }
}

/// The number without a suffix, below 2^32.
pub fn length_of(word: &[u8]) -> Option<u32>
    ensures { result ≡ kinds.as_length (kinds.word_number word.now) }
{
    match number_of(word) {
        Some((value, Suffix::Plain)) => u32::try_from(value).ok(),
        _ => None,
    }
}
