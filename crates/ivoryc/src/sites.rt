//! The checks of a module, a line for each.

ghost use Rattle.std.specs.Prelude.{◌≡◌, ◌≤◌, ◌++◌, length, map, IfOk, OnOk};
ghost use Rattle.contract_checks.specs.Sites.{check_of};
ghost use Rattle.ivory_lexer.specs.Limits.{source_limit};
ghost use Rattle.ivoryc.specs.Calls.{change_of, store_seen, sink_seen};
ghost use Rattle.ivoryc.specs.ModuleAnswers.{ListsSites};
ghost use Rattle.ivoryc.specs.Steps.{LoadsFor, Performed, Does};
ghost use Rattle.ivoryc.specs.Texts.{kind_word, site_text, sites_text};
ghost use Rattle.ivoryc.specs.declared.command.Command.TheVariants.{Sites};

use crate::load::load;
use crate::output::put;
use crate::place::{Place, Reached};
use crate::read::read_core;
use crate::refusal::Refusal;
use arrayvec::ArrayString;
use contract_checks::{Site, site_table};
use core_tree::SiteKind;
use itoa::Buffer;
use iv_base::{Sink, Store};
use iv_words::{Memory, Seq, Word};
use module_text::SOURCE_LIMIT;
use std::alloc::Global;

/// A line has three numbers of ten digits at most, a word, and nine bytes besides.
const LONGEST_LINE: usize = 48;

/// Writes a line for each check of the module in a file.
pub fn sites<S: Store, K: Sink>(
    alloc: Global,
    file: &Word,
    store: &mut S,
    out: &mut K,
) -> Result<(), Refusal>
    ensures loads { LoadsFor (Sites file.now) (change_of (store_seen S.holds S.loads S.faults) store.old store.new) }
    ensures performed { Performed (Sites file.now) (change_of (store_seen S.holds S.loads S.faults) store.old store.new) (change_of (sink_seen K.held K.taken K.faults) out.old out.new) result }
{
    let text = load(alloc, file, SOURCE_LIMIT, store)?;
    list_sites(alloc, text.as_slice(), out)
}

/// Writes a line for each check of the module of a text.
fn list_sites<K: Sink>(alloc: Global, text: &[u8], out: &mut K) -> Result<(), Refusal>
    requires { length text.now ≤ source_limit }
    ensures { Does (ListsSites text.now) (change_of (sink_seen K.held K.taken K.faults) out.old out.new) result }
{
    let core = read_core(alloc, text)?;
    let sites = site_table(alloc, &core)?;
    let lines = site_lines(alloc, text, &sites)?;
    put(lines.as_slice(), out)
}

/// A line for each site.
fn site_lines(alloc: Global, text: &[u8], sites: &Seq<Site>) -> Result<Word, Memory>
    requires { length text.now ≤ source_limit }
    ensures { IfOk result (λ lines. lines ≡ sites_text text.now (map check_of sites.now)) }
{
    let mut lines = Word::new(alloc);
    add_lines(text, sites.as_slice(), &mut lines)?;
    Ok(lines)
}

/// Adds a line for each site, with one walk along the text where the sites stand in its order.
fn add_lines(text: &[u8], sites: &[Site], lines: &mut Word) -> Result<(), Memory>
    requires { length text.now ≤ source_limit }
    ensures { OnOk result (lines.new ≡ lines.old ++ sites_text text.now (map check_of sites.now)) }
{
    let mut reached = Reached::start();
    for site in sites {
        reached = reached.moved(text, site.span.start);
        lines.extend_from_slice(line_of_site(site, reached.place).as_bytes())?;
    }
    Ok(())
}

/// The line of a site at a place, `site K KIND LINE:COLUMN` and a line end.
fn line_of_site(site: &Site, place: Place) -> ArrayString<LONGEST_LINE>
    ensures { result.bytes ≡ site_text site.now.id site.now.kind place }
{
    let mut number = Buffer::new();
    let mut line = ArrayString::new();
    line.push_str("site ");
    line.push_str(number.format(site.id));
    line.push_str(" ");
    line.push_str(word_of(site.kind));
    line.push_str(" ");
    line.push_str(number.format(place.line));
    line.push_str(":");
    line.push_str(number.format(place.column));
    line.push_str("\n");
    line
}

/// What a check guards against, in a word.
fn word_of(kind: SiteKind) -> &'static str
    ensures is { result.now ≡ kind_word kind }
    ensures short { length result.now ≤ 8 }
{
    match kind {
        SiteKind::Overflow => "overflow",
        SiteKind::DivZero => "divzero",
        SiteKind::Shift => "shift",
        SiteKind::Index => "index",
        SiteKind::Cast => "cast",
        SiteKind::Assert => "assert",
        SiteKind::Pre => "pre",
        SiteKind::Post => "post",
    }
}
