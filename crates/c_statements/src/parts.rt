//! A run while it goes on, and what its parts come to.

use c_expressions::State;
use c_operators::Value;
use run_world::World;

/// The state of the unit, and the outside.
#[derive(Drop)]
pub struct Run<'a> {
    pub state: State<'a>,
    pub world: World,
}

/// How control leaves a statement: it falls through, breaks off its loop, or returns, with a value or without.
#[derive(Clone, Copy, Drop)]
pub enum Control<'a> {
    Falls,
    Broke,
    Returned(Option<Value<'a>>),
}

/// What a call comes to: nothing, no value, since its function reached its `}`, or a value.
#[derive(Clone, Copy, Drop)]
pub enum Called<'a> {
    Nothing,
    Missing,
    Gave(Value<'a>),
}
