//! What is proved of numbers that are given one after another.

ghost use Rattle.check_numbers.specs.InARow.{NumberedInARow, AfterAll};

/// Where the checks of procedures have the numbers from 0 on by the tokens that carry them, these are the numbers that one after another get.
pub fn numbers_in_a_row()
    ensures { NumberedInARow }
{}

/// The number behind procedures is that behind all their checks.
pub fn numbers_after_all()
    ensures { AfterAll }
{}
