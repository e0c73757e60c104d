//! A generated module: its sizes, and a run of it.

ghost use Rattle.std.specs.Prelude.{◌≡◌, ◌≤◌, ◌++◌, length, IfOk};
ghost use Rattle.core_tree.specs.Cores.{core_of};
ghost use Rattle.ivoryc.specs.Calls.{change_of, sink_seen};
ghost use Rattle.ivoryc.specs.Commands.{most_procedures};
ghost use Rattle.ivoryc.specs.ModuleAnswers.{Measures, big_script};
ghost use Rattle.ivoryc.specs.RunAnswers.{module_report};
ghost use Rattle.ivoryc.specs.Steps.{Does};
ghost use Rattle.ivoryc.specs.Texts.{size_text};

use crate::output::put;
use crate::read::read_core;
use crate::refusal::Refusal;
use arrayvec::ArrayString;
use contract_checks::{Site, site_table};
use core_run::prepare;
use core_tree::Core;
use generated_module::generate;
use itoa::Buffer;
use iv_base::{MemSink, Sink};
use iv_script::Script;
use iv_words::{Memory, Seq, Word};
use run_records::EntryCall;
use std::alloc::Global;

/// The number of steps of the run.
const STEPS: u64 = 100_000;

/// The report has three lines, with two numbers.
const LONGEST_REPORT: u64 = 4_096;

/// Three numbers of twenty digits at most, and 19 bytes besides.
const LONGEST_SIZES: usize = 80;

/// Writes the sizes of a generated module of so many procedures, and the report of a run of it.
pub fn big<K: Sink>(alloc: Global, k: u32, out: &mut K) -> Result<(), Refusal>
    requires some { 1 ≤ k }
    requires few { k ≤ most_procedures }
    ensures { Does (Measures k) (change_of (sink_seen K.held K.taken K.faults) out.old out.new) result }
{
    let text = generate(alloc, k)?;
    let core = read_core(alloc, text.as_slice())?;
    let sites = site_table(alloc, &core)?;
    let report = report(alloc, core)?;
    let whole = joined(alloc, sizes(k, &text, &sites).as_bytes(), report.as_slice())?;
    put(whole.as_slice(), out)
}

/// The lines of the number of procedures, of bytes and of sites.
fn sizes(k: u32, text: &Word, sites: &Seq<Site>) -> ArrayString<LONGEST_SIZES>
    ensures { result.bytes ≡ size_text k (length text.now) (length sites.now) }
{
    let mut number = Buffer::new();
    let mut lines = ArrayString::new();
    lines.push_str("big ");
    lines.push_str(number.format(k));
    lines.push_str("\nbytes ");
    lines.push_str(number.format(text.len() as u64));
    lines.push_str("\nsites ");
    lines.push_str(number.format(sites.len() as u64));
    lines.push_str("\n");
    lines
}

/// The script by which the outside calls `all` with 5.
fn script(alloc: Global) -> Result<Script, Memory>
    ensures { IfOk result (λ s. s ≡ big_script) }
{
    let mut name = Word::new(alloc);
    name.extend_from_slice(b"all")?;
    let mut values = Seq::new(alloc);
    values.push(5)?;
    let mut calls = Seq::new(alloc);
    calls.push(EntryCall {
        name,
        values,
        line: 1,
    })?;
    Ok(Script {
        calls,
        replies: Seq::new(alloc),
    })
}

/// The report of a run of a core.
fn report(alloc: Global, core: Core) -> Result<Word, Memory>
    ensures { IfOk result (λ text. text ≡ module_report (core_of core) 100000 big_script) }
{
    let script = script(alloc)?;
    let mut sink = MemSink::new(alloc, LONGEST_REPORT, Seq::new(alloc))?;
    let mut ready = prepare(alloc, core)?;
    match ready.run(alloc, &script, STEPS, &mut sink) {
        Ok(_end) => joined(alloc, sink.text(), b""),
        Err(_) => Err(Memory),
    }
}

/// Two texts as one.
fn joined(alloc: Global, first: &[u8], second: &[u8]) -> Result<Word, Memory>
    ensures { IfOk result (λ text. text ≡ first.now ++ second.now) }
{
    let mut text = Word::new(alloc);
    text.extend_from_slice(first)?;
    text.extend_from_slice(second)?;
    Ok(text)
}
