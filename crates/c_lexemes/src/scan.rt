//! The next piece: a word, blanks, or another byte.

ghost use Rattle.std.specs.Prelude.{◌≡◌, ◌≤◌, length};
ghost use Rattle.std.specs.List.{prefix_len};
ghost use Rattle.c_text.specs.Identifiers as text;
ghost use Rattle.c_lexemes.specs.Scanned.{AreBlanks, IsWord, is_blank};

pub fn is_digit(byte: u8) -> bool
    ensures { result ≡ text.is_digit byte }
{
    byte >= b'0' && byte <= b'9'
}

pub fn is_letter(byte: u8) -> bool
    ensures { result ≡ text.is_letter byte }
{
    byte >= b'A' && byte <= b'Z' || byte >= b'a' && byte <= b'z' || byte == b'_'
}

pub fn is_identifier_byte(byte: u8) -> bool
    ensures { result ≡ text.is_identifier_byte byte }
{
    is_letter(byte) || is_digit(byte)
}

/// How many bytes of a word the bytes begin with.
fn word_length(bytes: &[u8]) -> usize
    ensures value { result ≡ prefix_len text.is_identifier_byte bytes.now }
    ensures within { result ≤ length bytes.now }
{
    bytes
        .iter()
        .take_while(|byte| is_identifier_byte(**byte))
        .count()
}

/// How many blanks the bytes begin with.
fn blanks_length(bytes: &[u8]) -> usize
    ensures value { result ≡ prefix_len is_blank bytes.now }
    ensures within { result ≤ length bytes.now }
{
    bytes.iter().take_while(|byte| **byte == b' ').count()
}

/// How many digits the bytes begin with.
pub fn digits_length(bytes: &[u8]) -> usize
    ensures value { result ≡ prefix_len text.is_digit bytes.now }
    ensures within { result ≤ length bytes.now }
{
    bytes.iter().take_while(|byte| is_digit(**byte)).count()
}

/// The word that comes next, and the bytes behind it.
pub fn word(bytes: &[u8]) -> Option<(&[u8], &[u8])>
    ensures { IsWord bytes.now result }
{
    let length = word_length(bytes);
    if length == 0 {
        return None;
    }
    Some(bytes.split_at(length))
}

/// How many blanks come next, and the bytes behind them.
pub fn blanks(bytes: &[u8]) -> Option<(usize, &[u8])>
    ensures { AreBlanks bytes.now result }
{
    let length = blanks_length(bytes);
    if length == 0 {
        return None;
    }
    let (_, rest) = bytes.split_at(length);
    Some((length, rest))
}
