use core_state::{Program, State, Value};

/// What an expression is evaluated in: the program, the state, and the procedure's result where `result` may be named.
#[derive(Clone, Copy, Drop)]
pub(crate) struct Scope<'a> {
    pub program: &'a Program,
    pub state: &'a State,
    pub outcome: &'a Option<Value>,
}
