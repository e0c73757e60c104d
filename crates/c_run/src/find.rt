//! Functions and externs by their names.

ghost use Rattle.std.specs.Prelude.{◌≡◌, ◌<◌, ◌&&◌, if◌then◌else◌, length, not, take, slice_get, Some, MatchOption};
ghost use Rattle.std.specs.List.{find};
ghost use Rattle.std.specs.Option.{option_copied};
ghost use Rattle.iv_words.specs.Words.{same_word};
ghost use Rattle.c_ast.specs.Names.{outer_name, stop_name};
ghost use Rattle.c_run.specs.Found.{NoneIsCalled, IsCalledAt, IsCalled, NoneIsEntered, IsEnteredAt, IsEntered};

use c_ast::{CExtern, CFunction};
use c_statements::outer_name;
use iv_words::Word;

/// A function, and those before it, which it may call.
#[derive(Clone, Copy, Drop)]
pub struct Found<'a> {
    pub earlier: &'a [CFunction],
    pub function: &'a CFunction,
}

/// Whether a name is that of the function that ends the run at a check.
pub fn is_stop(name: &Word) -> bool
    ensures { result ≡ same_word name.now stop_name }
{
    name.as_slice() == b"ivory_stop".as_slice()
}

/// The first extern of a name.
pub fn find_extern<'a>(externs: &'a [CExtern], name: &Word) -> Option<&'a CExtern>
    ensures { option_copied result ≡ find (λ x. same_word x.name name.now) externs.now }
{
    for x in externs {
        if x.name == *name {
            return Some(x);
        }
    }
    None
}

fn found_at<'a>(functions: &'a [CFunction], k: usize) -> Found<'a>
    requires { k < length functions.now }
    ensures earlier { result.earlier.now ≡ take k functions.now }
    ensures function { slice_get functions.now k ≡ Some result.function.now }
{
    Found {
        earlier: &functions[..k],
        function: &functions[k],
    }
}

/// The place k, where the function there has the name, or else the one found before.
fn latest(f: &CFunction, name: &Word, k: usize, found: Option<usize>) -> Option<usize>
    ensures { result ≡ (if same_word f.now.name name.now then Some k else found) }
{
    if f.name == *name { Some(k) } else { found }
}

fn place_called(functions: &[CFunction], name: &Word) -> Option<usize>
    ensures { MatchOption result (NoneIsCalled functions.now name.now) (λ k. IsCalledAt functions.now name.now k) }
{
    let mut found = None;
    for k in 0..functions.len() {
        found = latest(&functions[k], name, k, found);
    }
    found
}

/// The function that a name calls, the latest of those that have it.
pub fn find_function<'a>(functions: &'a [CFunction], name: &Word) -> Option<Found<'a>>
    ensures { MatchOption result (NoneIsCalled functions.now name.now) (λ found. IsCalled functions.now name.now found.earlier.now found.function.now) }
{
    match place_called(functions, name) {
        Some(k) => Some(found_at(functions, k)),
        None => None,
    }
}

/// Whether the outside calls a function by a name.
fn is_entry(f: &CFunction, name: &Word) -> bool
    ensures { result ≡ (not f.now.hidden && same_word (outer_name f.now.name) name.now) }
{
    !f.hidden && outer_name(&f.name) == name.as_slice()
}

fn place_entered(functions: &[CFunction], name: &Word) -> Option<usize>
    ensures { MatchOption result (NoneIsEntered functions.now name.now) (λ k. IsEnteredAt functions.now name.now k) }
{
    for k in 0..functions.len() {
        if is_entry(&functions[k], name) {
            return Some(k);
        }
    }
    None
}

/// The function that the outside calls by a name, the first that has it.
pub fn find_entry<'a>(functions: &'a [CFunction], name: &Word) -> Option<Found<'a>>
    ensures { MatchOption result (NoneIsEntered functions.now name.now) (λ found. IsEntered functions.now name.now found.earlier.now found.function.now) }
{
    match place_entered(functions, name) {
        Some(k) => Some(found_at(functions, k)),
        None => None,
    }
}
