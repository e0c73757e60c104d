ghost use Rattle.std.specs.Prelude.{◌≡◌, IfOk};

use crate::expr::Expr;
use iv_words::{Copied, Memory, Seq, Span};
use std::alloc::Global;

/// The first value of an area: an expression for a stored value, or one initializer for each element or field from the
/// first on, in braces, with the place of these.
#[cycle(init)]
#[derive(PartialEq, Eq)]
pub enum InitText {
    One(Expr),
    Many(Seq<InitText>, Span),
}

impl InitText {
    /// An initializer that equals this one.
    #[cycle(copies)]
    pub fn copy(&self, alloc: Global) -> Result<InitText, Memory>
        ensures { IfOk result (λ t. t ≡ self.now) }
    {
        Ok(match self {
            InitText::One(e) => InitText::One(e.copy(alloc)?),
            InitText::Many(inits, span) => InitText::Many(copied_inits(inits, alloc)?, *span),
        })
    }
}

#[cycle(copies)]
fn copied_inits(inits: &Seq<InitText>, alloc: Global) -> Result<Seq<InitText>, Memory>
    ensures { IfOk result (λ c. c ≡ inits.now) }
{
    let mut items = Seq::with_capacity(alloc, inits.len())?;
    for init in inits.iter() {
        items.push(init.copy(alloc)?)?;
    }
    Ok(items)
}

impl Copied for InitText {
    fn copied(&self, alloc: Global) -> Result<InitText, Memory> {
        self.copy(alloc)
    }
}

// Each tree is dropped by a function of this crate: one that is derived would be proved again in each crate that drops a tree.

impl Drop for InitText {
    fn drop(self) {
        match self {
            InitText::One(_) | InitText::Many(_, _) => {}
        }
    }
}
