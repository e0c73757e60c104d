ghost use Rattle.std.specs.Prelude.{◌≡◌, ◌-◌, ◌^◌, ◌≤◌, ◌<◌, min, IfOk, IfSome};
ghost use Rattle.std.specs.Option.{option_map};
ghost use Rattle.iv_base.specs.Numbers.{value};
ghost use Rattle.ivoryc.specs.Commands.{command, short_command, command_on, run_command, steps_of, procedures_of, most_procedures, is_short_number};
ghost use Rattle.ivoryc.specs.Steps.{IsSized};
ghost use Rattle.ivoryc.specs.declared.command.Command.TheVariants.{Big};

use iv_words::{Memory, Seq, Word};
use std::alloc::Global;

/// The greatest number of steps that can be asked for.
const MOST_STEPS: u64 = 100_000_000;

/// The greatest number of procedures of a generated module.
const MOST_PROCEDURES: u64 = 2_000;

/// What the words of a command line ask for.
#[derive(Debug, Drop)]
pub enum Command {
    /// Write the C text of the module in this file.
    Emit(Word),
    /// Say whether the module in this file is well typed.
    Check(Word),
    /// Write a line for each check of the module in this file.
    Sites(Word),
    /// Write the report of a run: of the module in the first file, by the script in the second, within so many steps.
    Run(Word, Word, u64),
    /// Write the report of a run: of the C text in the first file, by the script in the second, within so many steps.
    CRun(Word, Word, u64),
    /// Write the sizes of a generated module of so many procedures, and the report of a run of it.
    Big(u32),
}

/// The command that the words are, or none where they are no command.
pub fn words_of(alloc: Global, words: &Seq<Word>) -> Result<Option<Command>, Memory>
    ensures found { IfOk result (λ found. found ≡ command words.now) }
    ensures sized { IfOk result IsSized }
{
    match words.as_slice() {
        [name, word] => short_command(alloc, name, word),
        [name, file, script, steps] => run_command(alloc, name, file, script, steps),
        _ => Ok(None),
    }
}

/// A command of one file, or of a number.
fn short_command(alloc: Global, name: &Word, word: &Word) -> Result<Option<Command>, Memory>
    ensures found { IfOk result (λ found. found ≡ short_command name.now word.now) }
    ensures sized { IfOk result IsSized }
{
    if name.as_slice() == b"big".as_slice() {
        return Ok(big_command(word.as_slice()));
    }
    if word.len() == 0 {
        return Ok(None);
    }
    file_command(alloc, name, word)
}

/// A command of one file.
fn file_command(alloc: Global, name: &Word, file: &Word) -> Result<Option<Command>, Memory>
    ensures found { IfOk result (λ found. found ≡ command_on name.now file.now) }
    ensures sized { IfOk result IsSized }
{
    let name = name.as_slice();
    if name == b"emit".as_slice() {
        Ok(Some(Command::Emit(file.copy(alloc)?)))
    } else if name == b"check".as_slice() {
        Ok(Some(Command::Check(file.copy(alloc)?)))
    } else if name == b"sites".as_slice() {
        Ok(Some(Command::Sites(file.copy(alloc)?)))
    } else {
        Ok(None)
    }
}

/// The command of a number of procedures.
fn big_command(word: &[u8]) -> Option<Command>
    ensures found { result ≡ option_map Big (procedures_of word.now) }
    ensures sized { IsSized result }
{
    match procedures_of(word) {
        Some(k) => Some(Command::Big(k)),
        None => None,
    }
}

/// A command of two files and a number of steps.
fn run_command(
    alloc: Global,
    name: &Word,
    file: &Word,
    script: &Word,
    steps: &Word,
) -> Result<Option<Command>, Memory>
    ensures found { IfOk result (λ found. found ≡ run_command name.now file.now script.now (steps_of steps.now)) }
    ensures sized { IfOk result IsSized }
{
    let Some(steps) = steps_of(steps.as_slice()) else {
        return Ok(None);
    };
    if file.len() == 0 || script.len() == 0 {
        return Ok(None);
    }
    let name = name.as_slice();
    if name == b"run".as_slice() {
        Ok(Some(Command::Run(file.copy(alloc)?, script.copy(alloc)?, steps)))
    } else if name == b"crun".as_slice() {
        Ok(Some(Command::CRun(file.copy(alloc)?, script.copy(alloc)?, steps)))
    } else {
        Ok(None)
    }
}

/// The number of steps that a word stands for: one to nine decimal digits, with a value of at most 100,000,000.
#[tactic(auto, using(crate::proofs::Numbers::few_is_whole, crate::proofs::Numbers::many_is_none))]
fn steps_of(word: &[u8]) -> Option<u64>
    ensures { result ≡ steps_of word.now }
{
    if !is_short_number(word, 9) {
        return None;
    }
    let steps = value(word);
    if steps <= MOST_STEPS {
        Some(steps)
    } else {
        None
    }
}

/// The number of procedures that a word stands for: one to four decimal digits, with a value from 1 to 2,000.
#[tactic(auto, using(crate::proofs::Numbers::some_is_whole, crate::proofs::Numbers::none_is_none, crate::proofs::Numbers::more_is_none))]
fn procedures_of(word: &[u8]) -> Option<u32>
    ensures number { result ≡ procedures_of word.now }
    ensures sized { IfSome result (λ k. (1 ≤ k) × (k ≤ most_procedures)) }
{
    if !is_short_number(word, 4) {
        return None;
    }
    let k = value(word);
    if 1 <= k && k <= MOST_PROCEDURES {
        Some(k as u32)
    } else {
        None
    }
}

/// Whether a word is made of decimal digits, at least one and at most so many.
fn is_short_number(word: &[u8], most: usize) -> bool
    requires { most < 40 }
    ensures { result ≡ is_short_number most word.now }
{
    if word.is_empty() || word.len() > most {
        return false;
    }
    for byte in word {
        if !byte.is_ascii_digit() {
            return false;
        }
    }
    true
}

/// The value of decimal digits, or the greatest u64 where that is less.
#[tactic(auto, using(std::proofs::lemmas::List::Sums::fold_more))]
fn value(digits: &[u8]) -> u64
    ensures { result ≡ min (value digits.now) (2 ^ 64 - 1) }
{
    let mut value = 0u64;
    for digit in digits {
        value = value
            .saturating_mul(10)
            .saturating_add(u64::from(digit.saturating_sub(b'0')));
    }
    value
}
