//! Reads the bytes of a C text as a unit.

ghost use Rattle.std.specs.Prelude.{◌≡◌, ◌≤◌, length, IfErr, IfOk};
ghost use Rattle.c_ast.specs.View.{unit_of};
ghost use Rattle.c_text.specs.ReadsBack.{ReadsBack};
ghost use Rattle.c_text.specs.Spelling.{unit_text};
ghost use Rattle.c_reader.specs.Answers.{Kept, OnlyUnit, Read, Told, ToldOfNone, ToldWithin, text_limit, told_of};

use c_ast::{CUnit, Target};
use c_parser::{UnitFault, parse_unit};
use c_rules::first_broken;
use c_text::{CFault, CWhy};
use std::alloc::Global;

/// Why bytes read back as no unit.
#[derive(Clone, Copy, Debug, Drop, PartialEq, Eq)]
pub enum ReadFault {
    /// Their fault, and its place.
    At(CFault),
    /// Want of memory, which says nothing of the bytes.
    Memory,
}

/// The unit that bytes spell, with names and types right on a target: the only one.
///
/// # Errors
///
/// `At` with the first fault where no unit reads back: the first piece with which no unit goes on, the first bracket at which 301
/// are open, or the first place where a rule of names or types is broken; or want of memory.
pub fn read_unit(alloc: Global, bytes: &[u8], target: Target) -> Result<CUnit, ReadFault>
    requires { length bytes.now ≤ text_limit }
    ensures back { IfOk result (λ u. ReadsBack (unit_of u) bytes.now target) }
    ensures only { IfOk result (λ u. OnlyUnit target bytes.now (unit_of u)) }
    ensures fault { IfErr result (λ why. Told target bytes.now why) }
    ensures within { IfErr result (λ why. ToldWithin bytes.now why) }
    ensures none { IfErr result (λ why. ToldOfNone target bytes.now why) }
{
    read(alloc, bytes, target)
}

fn read(alloc: Global, bytes: &[u8], target: Target) -> Result<CUnit, ReadFault>
    requires { length bytes.now ≤ text_limit }
    ensures { Read target bytes.now result }
{
    match parse_unit(alloc, bytes) {
        Ok(unit) => kept(alloc, unit, target),
        Err(why) => Err(told(why)),
    }
}

/// A unit again, where it keeps the rules of names and types.
fn kept(alloc: Global, unit: CUnit, target: Target) -> Result<CUnit, ReadFault>
    requires { length (unit_text (unit_of unit)) ≤ text_limit }
    ensures { Kept target (unit_of unit) result }
{
    match first_broken(alloc, &unit, target) {
        Ok(None) => Ok(unit),
        Ok(Some(fault)) => Err(ReadFault::At(fault)),
        Err(_) => Err(ReadFault::Memory),
    }
}

/// What is told where the parser finds no unit.
fn told(why: UnitFault) -> ReadFault
    ensures { result ≡ told_of why }
{
    match why {
        UnitFault::Unexpected(at) => ReadFault::At(CFault {
            at,
            why: CWhy::Syntax,
        }),
        UnitFault::TooDeep(at) => ReadFault::At(CFault {
            at,
            why: CWhy::TooDeep,
        }),
        UnitFault::Memory => ReadFault::Memory,
    }
}
