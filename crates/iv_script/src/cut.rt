//! Cuts a text into lines, and a line into words.

ghost use Rattle.std.specs.Prelude.{◌≡◌, [], ◌∷◌, ◌<◌, ◌≤◌, length, drop, IfSome, MatchOption};
ghost use Rattle.std.specs.Option.{option_copied};
ghost use Rattle.std.specs.List.{position, position_or_len};
ghost use Rattle.std.specs.Str.Lines.{strip_carriage_return};
ghost use Rattle.iv_script.specs.ScriptText.{is_line_end, is_blank, lines, words};
ghost use Rattle.iv_script.specs.Cuts.{lines_left, size_left, is_filled};

/// The place of the first line end.
fn line_end(text: &[u8]) -> Option<usize>
    ensures { result ≡ position is_line_end text.now }
{
    text.iter().position(|b| *b == b'\n')
}

/// The first line of a text without its end, and the text behind that end, where there is one.
#[tactic(auto, using(crate::proofs::Cuts::line_cut, crate::proofs::Cuts::line_whole))]
pub fn cut_line(text: &[u8]) -> (&[u8], Option<&[u8]>)
    ensures cut { lines text.now ≡ result.0.now ∷ lines_left (option_copied result.1) }
    ensures shorter { size_left (option_copied result.1) ≤ length text.now }
{
    match line_end(text) {
        Some(at) => (&text[..at], Some(&text[at + 1..])),
        None => (text, None),
    }
}

/// A line without the byte 13 at its end.
pub fn without_return(line: &[u8]) -> &[u8]
    ensures { result.now ≡ strip_carriage_return line.now }
{
    match line.split_last() {
        Some((b'\r', front)) => front,
        _ => line,
    }
}

fn is_blank(byte: u8) -> bool
    ensures { result ≡ is_blank byte }
{
    byte == b' ' || byte == b'\t'
}

/// The place of the first blank.
fn word_end(line: &[u8]) -> Option<usize>
    ensures place { result ≡ position is_blank line.now }
    ensures within { IfSome result (λ at. at < length line.now) }
{
    line.iter().position(|b| is_blank(*b))
}

/// The place of the first byte that is no blank.
fn word_start(line: &[u8]) -> Option<usize>
    ensures place { result ≡ position is_filled line.now }
    ensures within { IfSome result (λ at. at < length line.now) }
{
    line.iter().position(|b| !is_blank(*b))
}

/// How many bytes stand before the first blank.
#[tactic(auto, using(crate::proofs::Cuts::place_found, crate::proofs::Cuts::place_past))]
fn word_length(line: &[u8]) -> usize
    ensures length { result ≡ position_or_len is_blank line.now }
    ensures within { result ≤ length line.now }
{
    match word_end(line) {
        Some(at) => at,
        None => line.len(),
    }
}

/// The first word of a line and what follows it; none where it has none.
pub fn next_word(line: &[u8]) -> Option<(&[u8], &[u8])>
    ensures words { MatchOption result (words line.now ≡ []) (λ p. words line.now ≡ p.0.now ∷ words p.1.now) }
    ensures shorter { IfSome result (λ p. length p.1.now < length line.now) }
{
    match word_start(line) {
        None => None,
        Some(start) => {
            let (_, rest) = line.split_at(start);
            Some(rest.split_at(word_length(rest)))
        }
    }
}
