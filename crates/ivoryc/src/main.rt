//! The program `ivoryc`: compiles modules of a memory-safe firmware language to a subset of C99.
#![tactic(auto)]

ghost use Rattle.std.specs.Prelude.{◌≡◌};
ghost use Rattle.std.specs.IoError.{error_kind};
ghost use Rattle.std.specs.declared.io.ErrorKind.TheVariants.{OutOfMemory};
ghost use Rattle.ivoryc.specs.Statuses as statuses;

mod big;
mod broken_rule;
mod c_fault;
mod call;
mod check;
mod command;
mod crun;
mod emit;
mod input_fault;
mod load;
mod output;
mod place;
mod read;
mod refusal;
mod run;
mod script;
mod script_fault;
mod sites;
mod status;

pub use crate::call::ivoryc;
pub use crate::command::{Command, words_of};
pub use crate::status::Status;
use iv_base::{FileStore, StreamSink};
use iv_words::{Memory, Seq, Word};
use std::env;
use std::io::{self, ErrorKind};
use std::process::ExitCode;

/// The exit status where the words cannot be had, for another cause than want of memory. No call of `ivoryc` ends with it.
const NO_WORDS: u8 = 9;

fn main(rt: HostRuntime) -> ExitCode {
    let words = match words_after_name(&rt) {
        Ok(words) => words,
        Err(error) => return ExitCode::from(number_without_words(&error)),
    };
    let alloc = rt.alloc();
    let mut out = StreamSink::output(rt.stdout());
    let mut err = StreamSink::error(rt.stderr());
    let mut store = FileStore::new(rt);
    let status = ivoryc(alloc, &words, &mut store, &mut out, &mut err);
    ExitCode::from(status.number())
}

/// The words after the program's name.
fn words_after_name(rt: &HostRuntime) -> io::Result<Seq<Word>> {
    let mut words = Seq::new(rt.alloc());
    for argument in env::args(rt)?.skip(1) {
        let mut word = Word::new(rt.alloc());
        word.extend_from_slice(argument.as_bytes())
            .map_err(no_memory)?;
        words.push(word).map_err(no_memory)?;
    }
    Ok(words)
}

fn no_memory(_memory: Memory) -> io::Error
    ensures { error_kind result ≡ OutOfMemory }
{
    io::Error::from(ErrorKind::OutOfMemory)
}

/// The exit status where the words cannot be had.
fn number_without_words(error: &io::Error) -> u8
    ensures { result ≡ statuses.number_without_words (error_kind error.now) }
{
    match error.kind() {
        ErrorKind::OutOfMemory => Status::Memory.number(),
        _ => NO_WORDS,
    }
}
