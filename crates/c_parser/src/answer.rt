ghost use Rattle.std.specs.Prelude.{◌≡◌, ◌≤◌, ◌-◌, ◌^◌, length};
ghost use Rattle.c_parser.specs.Answers.{Reads};

use crate::unit::unit;
use c_ast::CUnit;
use c_lexemes::Fault;
use std::alloc::Global;

/// Why bytes spell no unit. A place is the number of bytes before the piece at fault.
#[derive(Clone, Copy, Debug, Drop, PartialEq, Eq)]
pub enum UnitFault {
    /// The pieces before this place begin a unit, and with the one at it they begin none. Where it is the length of the bytes, they
    /// begin a unit and are none.
    Unexpected(u32),
    /// The pieces up to the one at this place begin a unit, and it is the first bracket at which 301 are open.
    TooDeep(u32),
    /// Want of memory, which says nothing of the bytes.
    Memory,
}

/// How many bytes stand before the rest.
fn place(bytes: &[u8], rest: &[u8]) -> u32
    requires few { length bytes.now ≤ 2 ^ 28 }
    requires within { length rest.now ≤ length bytes.now }
    ensures { result ≡ length bytes.now - length rest.now }
{
    (bytes.len() - rest.len()) as u32
}

/// The unit that bytes spell, whatever its names and types are.
///
/// # Errors
///
/// The place of the first piece with which no unit goes on, or of the first bracket at which 301 are open; or want of memory.
#[tactic(auto, using(crate::proofs::Answered::within_done, crate::proofs::Answered::within_unexpected, crate::proofs::Answered::within_too_deep))]
pub fn parse_unit(alloc: Global, bytes: &[u8]) -> Result<CUnit, UnitFault>
    requires few { length bytes.now ≤ 2 ^ 28 }
    ensures { Reads bytes.now result }
{
    match unit(alloc, 0, bytes) {
        Ok((unit, rest)) => {
            if rest.is_empty() {
                Ok(unit)
            } else {
                Err(UnitFault::Unexpected(place(bytes, rest)))
            }
        }
        Err(Fault::Memory) => Err(UnitFault::Memory),
        Err(Fault::Unexpected(rest)) => Err(UnitFault::Unexpected(place(bytes, rest))),
        Err(Fault::TooDeep(rest)) => Err(UnitFault::TooDeep(place(bytes, rest))),
    }
}
