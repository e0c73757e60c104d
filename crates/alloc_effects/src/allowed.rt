//! Permissions: which effects a statement may have where it stands.

ghost use Rattle.std.specs.Prelude.{◌≡◌};
ghost use Rattle.alloc_effects.specs.Permissions.{narrowed, looped};

/// What a statement may do.
#[derive(Clone, Copy, Debug, PartialEq, Eq)]
pub struct Allowed {
    pub may_alloc: bool,
    pub may_break: bool,
    pub may_return: bool,
}

/// The blocks that take a permission away.
#[derive(Clone, Copy)]
pub enum Narrowing {
    NoAlloc,
    NoBreak,
    NoReturn,
}

/// What is allowed in such a block.
pub fn narrow(a: Allowed, by: Narrowing) -> Allowed
    ensures { result ≡ narrowed a by }
{
    match by {
        Narrowing::NoAlloc => Allowed {
            may_alloc: false,
            ..a
        },
        Narrowing::NoBreak => Allowed {
            may_break: false,
            ..a
        },
        Narrowing::NoReturn => Allowed {
            may_return: false,
            ..a
        },
    }
}

/// What is allowed in the body of a loop: to break too.
pub fn in_loop(a: Allowed) -> Allowed
    ensures { result ≡ looped a }
{
    Allowed {
        may_break: true,
        ..a
    }
}
