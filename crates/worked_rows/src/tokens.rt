//! Texts with their tokens or their fault, each with its place.

use iv_words::Span;
use ivory_lexer::{Key, Mark, SOURCE_LIMIT, TokenKind, lex};
use std::alloc::Global;
use std::fmt::Write;
use std::test::Fail;

/// The kind of a token as a line shows it; a name is shown by its bytes.
fn show_kind(alloc: Global, kind: &TokenKind) -> Result<String, Fail> {
    Ok(match kind {
        TokenKind::Name(name) => { format!(in alloc; "{}", std::str::from_utf8(name.as_slice())?)? }
        TokenKind::Number(value) => format!(in alloc; "{value}")?,
        TokenKind::Key(key) => format!(in alloc; "{key:?}")?,
        TokenKind::Mark(mark) => format!(in alloc; "{mark:?}")?,
    })
}

/// What `lex` answers, as one line, by way of a copy.
fn show(alloc: Global, text: &[u8]) -> Result<String, Fail> {
    if text.len() as u64 > SOURCE_LIMIT {
        return Ok(format!(in alloc; "too long")?);
    }
    let tokens = match lex(alloc, text) {
        Ok(tokens) => tokens.copy(alloc)?,
        Err(why) => return Ok(format!(in alloc; "{why:?}")?),
    };
    let mut line = String::new(alloc);
    for token in tokens.as_slice() {
        let kind = show_kind(alloc, &token.kind)?;
        let Span { start, end } = token.span;
        write!(line, "{kind} {start}-{end} ")?;
    }
    Ok(line)
}

#[test]
fn cuts_texts(rt: HostRuntime) -> Result<(), Fail> {
    let rows: [(&[u8], &str); 24] = [
        (b"module m;", "KwModule 0-6 m 7-8 Semicolon 8-9 "),
        (b"module m; @", "BadByte(10)"),
        (b"/* x", "OpenComment(0)"),
        (
            b"module m; area a : uint8_t = 18446744073709551616;",
            "BigLiteral(29)",
        ),
        (
            b"module abcdefghijklmnopqrstuvwxyzab;",
            "KwModule 0-6 abcdefghijklmnopqrstuvwxyzab 7-35 Semicolon 35-36 ",
        ),
        (b"module abcdefghijklmnopqrstuvwxyzabc;", "LongName(7)"),
        (b"a--1\nb", "a 0-1 b 5-6 "),
        (b"a / *p", "a 0-1 Slash 2-3 Star 4-5 p 5-6 "),
        (b"/* a */ b */", "b 8-9 Star 10-11 Slash 11-12 "),
        (b"/*/ */1", "1 6-7 "),
        (b"x /*/", "OpenComment(2)"),
        (b"-- \xC3\xA9\r\n/*\xFF*/ \t7", "7 14-15 "),
        (b"7 \xC3\xA9", "BadByte(2)"),
        (b"a+%b", "a 0-1 PlusPercent 1-3 b 3-4 "),
        (b"<<=<=", "Shl 0-2 Assign 2-3 LessEqual 3-5 "),
        (b"18446744073709551615", "18446744073709551615 0-20 "),
        (b"0xfFfFFFFFFFFFFFFF", "18446744073709551615 0-18 "),
        (b"0x00010000000000000000 1", "BigLiteral(0)"),
        (b"007 0x0A 0xg", "7 0-3 10 4-8 0 9-10 xg 10-12 "),
        (b"0X1 1a", "0 0-1 X1 1-3 1 4-5 a 5-6 "),
        (
            b"const constant _if",
            "KwConst 0-5 constant 6-14 _if 15-18 ",
        ),
        (
            b"with as ptr null",
            "KwWith 0-4 KwAs 5-7 KwPtr 8-11 KwNull 12-16 ",
        ),
        (b"$ /*", "BadByte(0)"),
        (b"", ""),
    ];
    for (text, wanted) in rows {
        let line = show(rt.alloc(), text)?;
        assert_eq!(rt; line.as_str(), wanted);
    }
    Ok(())
}

#[test]
fn has_each_symbol(rt: HostRuntime) -> Result<(), Fail> {
    let text =
        b"( ) { } [ ] , ; : = . -> + - * / % +% -% *% & | ^ ~ ! << >> && || == != < <= > >= ?";
    let tokens = lex(rt.alloc(), text)?;
    let mut names = String::new(rt.alloc());
    for token in tokens.as_slice() {
        write!(names, "{} ", show_kind(rt.alloc(), &token.kind)?)?;
    }
    assert_eq!(rt;
        names.as_str(),
        "OpenParen CloseParen OpenBrace CloseBrace OpenBracket CloseBracket Comma Semicolon Colon Assign Dot Arrow Plus \
         Minus Star Slash Percent PlusPercent MinusPercent StarPercent Amp Pipe Caret Tilde Bang Shl Shr AmpAmp PipePipe \
         EqualEqual BangEqual Less LessEqual Greater GreaterEqual Question "
    );
    Ok(())
}

#[test]
fn reads_a_text_of_the_greatest_length(rt: HostRuntime) -> Result<(), Fail> {
    let mut text = Vec::new(rt.alloc());
    text.extend_from_slice(b"module m;")?;
    text.resize(262_144, b' ')?;
    let line = show(rt.alloc(), &text)?;
    assert_eq!(rt; line.as_str(), "KwModule 0-6 m 7-8 Semicolon 8-9 ");
    Ok(())
}
