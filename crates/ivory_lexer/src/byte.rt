ghost use Rattle.std.specs.Prelude.{◌≡◌, ◌≤◌, length, take, IsTrue};
ghost use Rattle.std.specs.List.{list_all, prefix_len};
ghost use Rattle.std.specs.Char.{is_ascii_digit, is_ascii_hexdigit};
ghost use Rattle.ivory_lexer.specs.Table as table;

pub fn is_white(b: u8) -> bool
    ensures { result ≡ table.is_white b }
{
    matches!(b, b'\t' | b'\n' | b'\r' | b' ')
}

pub fn begins_name(b: u8) -> bool
    ensures { result ≡ table.begins_name b }
{
    b.is_ascii_alphabetic() || b == b'_'
}

pub fn is_in_name(b: u8) -> bool
    ensures { result ≡ table.is_in_name b }
{
    begins_name(b) || b.is_ascii_digit()
}

/// How many white bytes the text begins with.
pub fn white_len(text: &[u8]) -> usize
    ensures value { result ≡ prefix_len table.is_white text.now }
    ensures within { result ≤ length text.now }
{
    text.iter().take_while(|b| is_white(**b)).count()
}

/// How many bytes of a name the text begins with.
pub fn name_len(text: &[u8]) -> usize
    ensures value { result ≡ prefix_len table.is_in_name text.now }
    ensures within { result ≤ length text.now }
{
    text.iter().take_while(|b| is_in_name(**b)).count()
}

/// How many bytes stand before the first line end.
pub fn line_len(text: &[u8]) -> usize
    ensures value { result ≡ prefix_len table.is_in_line text.now }
    ensures within { result ≤ length text.now }
{
    text.iter().take_while(|b| **b != b'\n').count()
}

/// How many decimal digits the text begins with.
pub fn decimal_len(text: &[u8]) -> usize
    ensures value { result ≡ prefix_len is_ascii_digit text.now }
    ensures within { result ≤ length text.now }
{
    text.iter().take_while(|b| b.is_ascii_digit()).count()
}

/// How many hexadecimal digits the text begins with.
pub fn hex_len(text: &[u8]) -> usize
    ensures value { result ≡ prefix_len is_ascii_hexdigit text.now }
    ensures within { result ≤ length text.now }
{
    text.iter().take_while(|b| b.is_ascii_hexdigit()).count()
}
