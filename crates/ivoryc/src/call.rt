ghost use Rattle.std.specs.Prelude.{Some};
ghost use Rattle.ivoryc.specs.Calls.{change_of, store_seen, sink_seen};
ghost use Rattle.ivoryc.specs.Promise.{Promise};
ghost use Rattle.ivoryc.specs.Steps.{IsSized, LoadsFor, Performed, Ran};

use crate::big::big;
use crate::check::check;
use crate::command::{Command, words_of};
use crate::crun::crun;
use crate::emit::emit;
use crate::refusal::{Refusal, report};
use crate::run::run;
use crate::sites::sites;
use crate::status::Status;
use iv_base::{Sink, Store};
use iv_words::{Seq, Word};
use std::alloc::Global;

/// One call of the program: does what the words ask for.
///
/// What it makes goes to `out`, and the line of a refusal to `err`. It loads each file that the words name at most once. The
/// status says how it ended.
pub fn ivoryc<S: Store, K: Sink, E: Sink>(
    alloc: Global,
    words: &Seq<Word>,
    store: &mut S,
    out: &mut K,
    err: &mut E,
) -> Status
    ensures { Promise (record {
      words = words.now;
      status = result;
      store = change_of (store_seen S.holds S.loads S.faults) store.old store.new;
      out = change_of (sink_seen K.held K.taken K.faults) out.old out.new;
      err = change_of (sink_seen E.held E.taken E.faults) err.old err.new;
    }) }
{
    match obey(alloc, words, store, out) {
        Ok(()) => Status::Done,
        Err(refusal) => report(refusal, err),
    }
}

/// Does what the words ask for, or answers why not.
fn obey<S: Store, K: Sink>(
    alloc: Global,
    words: &Seq<Word>,
    store: &mut S,
    out: &mut K,
) -> Result<(), Refusal>
    ensures { Ran words.now (change_of (store_seen S.holds S.loads S.faults) store.old store.new) (change_of (sink_seen K.held K.taken K.faults) out.old out.new) result }
{
    match words_of(alloc, words)? {
        Some(command) => perform(alloc, &command, store, out),
        None => Err(Refusal::Words),
    }
}

/// Does what the command asks for, or answers why not.
fn perform<S: Store, K: Sink>(
    alloc: Global,
    command: &Command,
    store: &mut S,
    out: &mut K,
) -> Result<(), Refusal>
    requires { IsSized (Some command.now) }
    ensures loads { LoadsFor command.now (change_of (store_seen S.holds S.loads S.faults) store.old store.new) }
    ensures performed { Performed command.now (change_of (store_seen S.holds S.loads S.faults) store.old store.new) (change_of (sink_seen K.held K.taken K.faults) out.old out.new) result }
{
    match command {
        Command::Emit(file) => emit(alloc, file, store, out),
        Command::Check(file) => check(alloc, file, store, out),
        Command::Sites(file) => sites(alloc, file, store, out),
        Command::Run(file, script, steps) => run(alloc, file, script, *steps, store, out),
        Command::CRun(file, script, steps) => crun(alloc, file, script, *steps, store, out),
        Command::Big(k) => big(alloc, *k, out),
    }
}
