ghost use Rattle.std.specs.Prelude.{◌≡◌, [], ◌∷◌};
ghost use Rattle.ivory_lexer.specs.Table.{look_up};
ghost use Rattle.ivory_lexer.specs.Words.{symbols};
ghost use Rattle.ivory_lexer.specs.Scanning.{of_length};

use crate::mark::Mark;

/// The symbol that is this byte alone, if there is one.
pub fn single_mark(b: u8) -> Option<Mark>
    ensures { result ≡ look_up (of_length 1 symbols) (b ∷ []) }
{
    let mark = match b {
        b'(' => Mark::OpenParen,
        b')' => Mark::CloseParen,
        b'{' => Mark::OpenBrace,
        b'}' => Mark::CloseBrace,
        b'[' => Mark::OpenBracket,
        b']' => Mark::CloseBracket,
        b',' => Mark::Comma,
        b';' => Mark::Semicolon,
        b':' => Mark::Colon,
        b'=' => Mark::Assign,
        b'.' => Mark::Dot,
        b'+' => Mark::Plus,
        b'-' => Mark::Minus,
        b'*' => Mark::Star,
        b'/' => Mark::Slash,
        b'%' => Mark::Percent,
        b'&' => Mark::Amp,
        b'|' => Mark::Pipe,
        b'^' => Mark::Caret,
        b'~' => Mark::Tilde,
        b'!' => Mark::Bang,
        b'<' => Mark::Less,
        b'>' => Mark::Greater,
        b'?' => Mark::Question,
        _ => return None,
    };
    Some(mark)
}

/// The symbol that is these two bytes, if there is one.
pub fn double_mark(b: u8, c: u8) -> Option<Mark>
    ensures { result ≡ look_up (of_length 2 symbols) (b ∷ c ∷ []) }
{
    let mark = match (b, c) {
        (b'-', b'>') => Mark::Arrow,
        (b'+', b'%') => Mark::PlusPercent,
        (b'-', b'%') => Mark::MinusPercent,
        (b'*', b'%') => Mark::StarPercent,
        (b'<', b'<') => Mark::Shl,
        (b'>', b'>') => Mark::Shr,
        (b'&', b'&') => Mark::AmpAmp,
        (b'|', b'|') => Mark::PipePipe,
        (b'=', b'=') => Mark::EqualEqual,
        (b'!', b'=') => Mark::BangEqual,
        (b'<', b'=') => Mark::LessEqual,
        (b'>', b'=') => Mark::GreaterEqual,
        _ => return None,
    };
    Some(mark)
}
