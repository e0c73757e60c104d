use crate::types::Reference;

/// A parameter with its argument, as references, where they are ones.
#[derive(Clone, Copy)]
pub struct Matched<'a> {
    pub wanted: Option<Reference<'a>>,
    pub given: Option<Reference<'a>>,
}
