//! Procedures by number and by name, with those that they may call.

ghost use Rattle.std.specs.Prelude.{◌≡◌, ◌<◌, ◌&&◌, length, slice_get, take, Some, MatchOption};
ghost use Rattle.iv_words.specs.Words.{same_word};
ghost use Rattle.core_run.specs.Found.{NoneIsCalled, IsCalled, NoneIsEntered, IsEnteredAt, IsEntered};

use core_tree::CoreProc;
use iv_words::Word;

/// A procedure, and those before it, which it may call.
#[derive(Clone, Copy, Drop)]
pub struct Found<'a> {
    pub earlier: &'a [CoreProc],
    pub proc: &'a CoreProc,
}

fn found_at<'a>(procs: &'a [CoreProc], k: usize) -> Found<'a>
    requires { k < length procs.now }
    ensures earlier { result.earlier.now ≡ take k procs.now }
    ensures proc { slice_get procs.now k ≡ Some result.proc.now }
{
    Found {
        earlier: &procs[..k],
        proc: &procs[k],
    }
}

/// The procedure that a call of this number reaches.
pub fn find_proc<'a>(procs: &'a [CoreProc], number: u32) -> Option<Found<'a>>
    ensures { MatchOption result (NoneIsCalled procs.now number) (λ found. IsCalled procs.now number found.earlier.now found.proc.now) }
{
    let k = number as usize;
    if k < procs.len() {
        Some(found_at(procs, k))
    } else {
        None
    }
}

/// Whether the outside calls a procedure by a name.
fn is_entry(p: &CoreProc, name: &Word) -> bool
    ensures { result ≡ (p.now.exported && same_word p.now.name name.now) }
{
    p.exported && p.name == *name
}

fn place_entered(procs: &[CoreProc], name: &Word) -> Option<usize>
    ensures { MatchOption result (NoneIsEntered procs.now name.now) (λ k. IsEnteredAt procs.now name.now k) }
{
    for k in 0..procs.len() {
        if is_entry(&procs[k], name) {
            return Some(k);
        }
    }
    None
}

/// The procedure that the outside calls by a name, the first that has it.
pub fn find_entry<'a>(procs: &'a [CoreProc], name: &Word) -> Option<Found<'a>>
    ensures { MatchOption result (NoneIsEntered procs.now name.now) (λ found. IsEntered procs.now name.now found.earlier.now found.proc.now) }
{
    match place_entered(procs, name) {
        Some(k) => Some(found_at(procs, k)),
        None => None,
    }
}
