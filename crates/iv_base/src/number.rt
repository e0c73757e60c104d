ghost use Rattle.std.specs.Prelude.{◌≡◌, ◌+◌, ◌-◌, ◌^◌, min, length, OnOk, OnErr};
ghost use Rattle.std.specs.Fmt.{signed_decimal};
ghost use Rattle.iv_base.specs.Counts.{capped};
ghost use Rattle.iv_base.specs.Numbers.{number_of, unsigned, are_digits};
ghost use Rattle.std.specs.Option.{option_map};
ghost use Rattle.iv_base.specs.Sinks.{grown, GrewByPrefix, HasCause};

use crate::sink::{Sink, SinkFault};
use itoa::Buffer;

/// Puts the decimal text of a number, with `-` before a negative one. It refuses as `put` does.
pub fn put_number<K: Sink>(v: i128, out: &mut K) -> Result<(), SinkFault>
    ensures held { OnOk result (K.held out.new ≡ grown (K.held out.old) (signed_decimal v)) }
    ensures taken { OnOk result (K.taken out.new ≡ capped (K.taken out.old + length (signed_decimal v))) }
    ensures part { OnErr result (GrewByPrefix (K.held out.old) (K.held out.new) (signed_decimal v)) }
    ensures cause { HasCause (K.faults out.old) (K.faults out.new) result }
{
    let mut buffer = Buffer::new();
    out.put(buffer.format(v).as_bytes())
}

/// Reads `-` or nothing and then one to 39 digits; none where the bytes are not of this form, or the number is no i128.
#[tactic(auto, using(crate::proofs::Digits::narrowed_positive, crate::proofs::Digits::narrowed_negative))]
pub fn read_number(b: &[u8]) -> Option<i128>
    ensures { result ≡ number_of b.now }
{
    match b.split_first() {
        Some((b'-', digits)) => 0i128.checked_sub_unsigned(magnitude(digits)?),
        _ => 0i128.checked_add_unsigned(magnitude(b)?),
    }
}

/// The value of one to 39 digits, or the greatest u128 where that is less, which is no i128 either.
#[tactic(auto, using(std::proofs::lemmas::List::Sums::fold_more))]
fn magnitude(digits: &[u8]) -> Option<u128>
    ensures { result ≡ option_map (λ n. min n (2 ^ 128 - 1)) (unsigned digits.now) }
{
    if !is_unsigned(digits) {
        return None;
    }
    let mut value = 0u128;
    for digit in digits {
        value = value
            .saturating_mul(10)
            .saturating_add(u128::from(digit.saturating_sub(b'0')));
    }
    Some(value)
}

fn is_unsigned(bytes: &[u8]) -> bool
    ensures { result ≡ are_digits bytes.now }
{
    if bytes.is_empty() || bytes.len() > 39 {
        return false;
    }
    for byte in bytes {
        if !byte.is_ascii_digit() {
            return false;
        }
    }
    true
}
