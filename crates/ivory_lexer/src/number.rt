ghost use Rattle.std.specs.Prelude.{◌≡◌, ◌<◌, ◌≤◌, ◌+◌, ◌*◌, ◌^◌, length, take, IfSome, true};
ghost use Rattle.std.specs.List.{list_all};
ghost use Rattle.std.specs.Char.{digit_value, is_ascii_hexdigit};
ghost use Rattle.std.specs.Str.Parse.{digits_value, AllDigits};
ghost use Rattle.ivory_lexer.specs.Table.{in_range};

/// The number with one more digit at its end, where it is below 2^64.
fn with_digit(n: u64, radix: u64, digit: u64) -> Option<u64>
    ensures value { result ≡ in_range (n * radix + digit) }
    ensures small { IfSome result (λ m. m < 2 ^ 64) }
{
    n.checked_mul(radix)?.checked_add(digit)
}

/// The value of a digit, decimal or hexadecimal of either case.
fn value_of_digit(b: u8) -> u64
    requires { is_ascii_hexdigit b ≡ true }
    ensures { result ≡ digit_value b }
{
    match b {
        b'0'..=b'9' => u64::from(b - b'0'),
        b'A'..=b'F' => u64::from(b - b'A') + 10,
        _ => u64::from(b - b'a') + 10,
    }
}

/// The number that the digits write, where it is below 2^64.
pub fn number_of(radix: u64, digits: &[u8]) -> Option<u64>
    requires radix { 0 < radix }
    requires digits { list_all is_ascii_hexdigit digits.now ≡ true }
    ensures { result ≡ in_range (digits_value radix digits.now) }
{
    let mut n = 0;
    for b in digits {
        let Some(next) = with_digit(n, radix, value_of_digit(*b)) else {
            return None;
        };
        n = next;
    }
    Some(n)
}
