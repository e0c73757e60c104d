ghost use Rattle.std.specs.Prelude.{◌≡◌, IfOk};

use crate::expr::CoreExpr;
use iv_words::{Copied, Memory, Seq};
use std::alloc::Global;

/// The first value of an area: an expression for a stored value, or one initializer for each element or field from the first on.
#[cycle(init)]
#[derive(PartialEq, Eq)]
pub enum CoreInit {
    One(CoreExpr),
    Many(Seq<CoreInit>),
}

impl CoreInit {
    /// An initializer that equals this one.
    #[cycle(copies)]
    pub fn copy(&self, alloc: Global) -> Result<CoreInit, Memory>
        ensures { IfOk result (λ t. t ≡ self.now) }
    {
        Ok(match self {
            CoreInit::One(e) => CoreInit::One(e.copy(alloc)?),
            CoreInit::Many(inits) => CoreInit::Many(copied_inits(inits, alloc)?),
        })
    }
}

#[cycle(copies)]
fn copied_inits(inits: &Seq<CoreInit>, alloc: Global) -> Result<Seq<CoreInit>, Memory>
    ensures { IfOk result (λ c. c ≡ inits.now) }
{
    let mut items = Seq::with_capacity(alloc, inits.len())?;
    for init in inits.iter() {
        items.push(init.copy(alloc)?)?;
    }
    Ok(items)
}

impl Copied for CoreInit {
    fn copied(&self, alloc: Global) -> Result<CoreInit, Memory> {
        self.copy(alloc)
    }
}

// Each tree is dropped by a function of this crate: one that is derived would be proved again in each crate that drops a tree.

impl Drop for CoreInit {
    fn drop(self) {
        match self {
            CoreInit::One(_) | CoreInit::Many(_) => {}
        }
    }
}
