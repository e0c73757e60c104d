//! The state of a run of C: the names in scope in the function that runs and in its callers, and the objects.

use c_objects::{Base, Objects};
use c_operators::Value;
use iv_words::{Seq, Word};

/// What a name of a function is: one that holds a value, or one that names the object of a number and a type.
#[derive(Clone, Copy, Drop)]
pub enum Slot<'a> {
    Holding(Value<'a>),
    Naming(usize, Base<'a>),
}

/// A name in scope.
#[derive(Clone, Copy, Drop)]
pub struct Local<'a> {
    pub name: &'a Word,
    pub slot: Slot<'a>,
}

/// The names of the function that runs, the latest last, those of the functions that wait for it, the nearest last, and the objects.
#[derive(Drop)]
pub struct State<'a> {
    pub own: Seq<Local<'a>>,
    pub callers: Seq<Seq<Local<'a>>>,
    pub objects: Objects<'a>,
}
