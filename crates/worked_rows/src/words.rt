//! Words, lists and boxes with their copies, and places by line and column.

use iv_words::{Box, Memory, Name, Seq, Span, Word, line_of};

#[test]
fn lists_grow_and_are_copied(rt: HostRuntime) -> Result<(), Memory> {
    let alloc = rt.alloc();
    let mut word = Word::new(alloc);
    word.push(b'a')?;
    word.extend_from_slice(b"bc")?;
    assert_eq!(rt; word.as_slice(), b"abc".as_slice());

    let mut words = Seq::new(alloc);
    words.push(Box::new(alloc, word.copy(alloc)?)?)?;
    words.push(Box::new(alloc, Word::new(alloc))?)?;
    let copy = words.copy(alloc)?;
    assert_eq!(rt; copy, words);
    assert_eq!(rt; copy.len(), 2);
    assert_eq!(rt; *copy[0].get(), word);

    let name = Name {
        text: word,
        span: Span { start: 3, end: 6 },
    };
    assert_eq!(rt; name.copy(alloc)?, name);
    Ok(())
}

#[test]
fn counts_from_one(rt: HostRuntime) {
    for (at, place) in [
        (0, (1, 1)),
        (2, (1, 3)),
        (3, (2, 1)),
        (4, (3, 1)),
        (5, (3, 2)),
    ] {
        assert_eq!(rt; line_of(b"ab\n\nc", at), place);
    }
    assert_eq!(rt; line_of(b"module m;\nexport proc main() {", 30), (2, 21));
}
