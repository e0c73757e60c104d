//! How far a text was gone through, and which fault came first.

ghost use Rattle.std.specs.Prelude.{◌≡◌, ◌+◌, ◌≤◌, []};
ghost use Rattle.c_text.specs.FirstFault as faults;
ghost use Rattle.c_text.specs.FirstFault.{earlier};
ghost use Rattle.c_scopes.specs.Joined.{joined, broken, last};
ghost use Rattle.c_scopes.specs.Walks.{Walks, Asked};

use c_text::{CFault, CWhy};

/// A place in a text that is gone through form by form, and the first fault so far.
///
/// A text of more than 4,294,967,295 bytes has places that do not fit: from there on the place stays.
#[derive(Drop)]
pub struct Walk {
    pub at: u32,
    pub fault: Option<CFault>,
}

impl Walk {
    /// Goes past a piece of the text of which nothing is asked.
    pub fn pass(&mut self, piece: &[u8])
        ensures { Walks self.old self.new piece.now [] }
    {
        self.at = moved(self.at, piece.len());
    }

    /// Asks for a rule at a place.
    pub fn ask(&mut self, at: u32, why: CWhy, kept: bool)
        ensures { Asked self.old self.new at why kept }
    {
        self.fault = first_of(self.fault, at, why, kept);
    }
}

/// The place so many bytes behind another.
fn moved(at: u32, bytes: usize) -> u32
    ensures { at + bytes ≤ last → result ≡ at + bytes }
{
    let room = u32::MAX - at;
    if bytes <= room as usize {
        at + bytes as u32
    } else {
        u32::MAX
    }
}

/// The first fault once a rule is asked for.
fn first_of(fault: Option<CFault>, at: u32, why: CWhy, kept: bool) -> Option<CFault>
    ensures { result ≡ joined fault (broken at why kept) }
{
    if kept {
        return fault;
    }
    let other = CFault { at, why };
    match fault {
        None => Some(other),
        Some(fault) => Some(earlier_of(fault, other)),
    }
}

/// The earlier of two faults; of two at one place, that of a name.
fn earlier_of(fault: CFault, other: CFault) -> CFault
    ensures { result ≡ earlier fault other }
{
    if fault.at < other.at {
        fault
    } else if other.at < fault.at {
        other
    } else if is_of_name(fault.why) {
        fault
    } else {
        other
    }
}

fn is_of_name(why: CWhy) -> bool
    ensures { result ≡ faults.is_of_name why }
{
    match why {
        CWhy::BadName => true,
        CWhy::Syntax | CWhy::TooDeep | CWhy::BadType => false,
    }
}
