ghost use Rattle.statement_refinement.specs.Moves.{LetsMove, MovesJoin, StatesMove, StoresMove};
ghost use Rattle.statement_refinement.specs.Stores.{StoresFollow};
ghost use Rattle.statement_refinement.specs.Tests.{AssertsFollow, ContractsFollow};

/// The C of an `assert` follows it: both go on where its condition holds, and stop at its site where it does not.
pub fn asserts_follow()
    ensures { AssertsFollow }
{}

/// So do the tests of what a procedure requires or ensures, one after another.
pub fn contracts_follow()
    ensures { ContractsFollow }
{}

/// The C of a store follows it: the steps of each side allow those of the other, both stop at the same check, and the states are related again
/// once the number is written.
pub fn stores_follow()
    ensures { StoresFollow }
{}

/// Related states stay related, for the names that were in scope, where both sides have moved on alike.
pub fn states_move()
    ensures { StatesMove }
{}

/// What moves on twice moves on.
pub fn moves_join()
    ensures { MovesJoin }
{}

/// A store moves both sides.
pub fn stores_move()
    ensures { StoresMove }
{}

/// A `let` moves both sides, up to its own name.
pub fn lets_move()
    ensures { LetsMove }
{}
