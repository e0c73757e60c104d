//! One line of a script.

ghost use Rattle.std.specs.Prelude.{◌≡◌, ◌∷◌, IfOk};
ghost use Rattle.iv_script.specs.Answers.{Answers, at_line};
ghost use Rattle.iv_script.specs.ScriptText.{words, line_words, numbers, numbers_said, call_said, line_said, is_comment};

use crate::cut::{next_word, without_return};
use crate::fault::{ScriptError, ScriptFault, ScriptWhy};
use iv_base::read_number;
use iv_words::{Seq, Word};
use std::alloc::Global;

/// What a line of a script says.
#[derive(Debug, Drop)]
pub enum Line {
    /// Blanks alone, or a comment.
    Nothing,
    /// A call of an exported procedure, with its arguments.
    Call(Word, Seq<i128>),
    /// What a call of an import gives back.
    Reply(Seq<i128>),
}

fn is_comment(word: &[u8]) -> bool
    ensures { result ≡ is_comment word.now }
{
    match word.split_first() {
        Some((first, _)) => *first == b'#',
        None => false,
    }
}

/// The numbers that the words of the rest of a line stand for.
#[tactic(auto, using(crate::proofs::Lines::number_more, crate::proofs::Lines::no_number, crate::proofs::Lines::numbers_done))]
fn read_values(alloc: Global, line: u32, rest: &[u8]) -> Result<Seq<i128>, ScriptError>
    ensures { Answers (at_line line (numbers_said (numbers (words rest.now)))) result }
{
    let mut values = Seq::new(alloc);
    let mut rest = rest;
    while let Some((word, more)) = next_word(rest) {
        match read_number(word) {
            Some(value) => values.push(value)?,
            None => {
                return Err(ScriptError::At(ScriptFault {
                    line,
                    why: ScriptWhy::BadNumber,
                }));
            }
        }
        rest = more;
    }
    Ok(values)
}

/// What follows `call`: a name and values.
fn read_call(alloc: Global, line: u32, rest: &[u8]) -> Result<Line, ScriptError>
    ensures { Answers (at_line line (call_said (words rest.now))) result }
{
    match next_word(rest) {
        None => Err(ScriptError::At(ScriptFault {
            line,
            why: ScriptWhy::BadWord,
        })),
        Some((name, rest)) => {
            let values = read_values(alloc, line, rest)?;
            Ok(Line::Call(Word::from_slice(alloc, name)?, values))
        }
    }
}

/// What a line says that has a first word.
fn read_words(alloc: Global, line: u32, first: &[u8], rest: &[u8]) -> Result<Line, ScriptError>
    ensures { Answers (at_line line (line_said (first.now ∷ words rest.now))) result }
{
    if is_comment(first) {
        Ok(Line::Nothing)
    } else if first == b"call".as_slice() {
        read_call(alloc, line, rest)
    } else if first == b"reply".as_slice() {
        Ok(Line::Reply(read_values(alloc, line, rest)?))
    } else {
        Err(ScriptError::At(ScriptFault {
            line,
            why: ScriptWhy::BadWord,
        }))
    }
}

/// What a line says, of which the number is for its fault alone.
pub fn read_line(alloc: Global, line: u32, text: &[u8]) -> Result<Line, ScriptError>
    ensures { Answers (at_line line (line_said (line_words text.now))) result }
{
    match next_word(without_return(text)) {
        None => Ok(Line::Nothing),
        Some((first, rest)) => read_words(alloc, line, first, rest),
    }
}
