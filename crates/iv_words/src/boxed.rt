ghost use Rattle.std.specs.Prelude.{◌≡◌, IfOk};

use crate::copied::Copied;
use crate::memory::Memory;
use std::alloc::Global;
use std::marker::Model;
use std::ops::Deref;

/// A box that contracts see as the value in it. A `std` box shows its pointer too, so that no copy would equal it.
#[derive(Debug)]
pub struct Box<T> {
    inner: std::boxed::Box<T>,
}

impl<T> Model for Box<T> {
    ghost Value = { T };

    ghost coded = { T.code };

    ghost view = { λ b. b.inner.value };
}

impl<T> Box<T> {
    pub fn get(&self) -> &T
        ensures { result.now ≡ self.now }
    {
        &self.inner
    }

    /// Takes the value out.
    pub fn into_inner(self) -> T
        ensures { result ≡ self }
    {
        let Box { inner } = self;
        std::boxed::Box::into_inner(inner)
    }
}

impl<T: Drop> Drop for Box<T> {
    fn drop(self) {
        let Box { inner: _ } = self;
    }
}

impl<T: Drop> Box<T> {
    /// Puts a value into memory of its own; for want of that the value is given up.
    pub fn new(alloc: Global, value: T) -> Result<Box<T>, Memory>
        ensures { IfOk result (λ b. b ≡ value) }
    {
        match std::boxed::Box::new(alloc, value) {
            Ok(inner) => Ok(Box { inner }),
            Err(_) => Err(Memory),
        }
    }
}

impl<T: Drop + Copied> Copied for Box<T> {
    fn copied(&self, alloc: Global) -> Result<Box<T>, Memory> {
        Box::new(alloc, self.get().copied(alloc)?)
    }
}

impl<T> Deref for Box<T> {
    type Target = T;

    ghost deref_gives = { λ b x. x ≡ b };

    fn deref(&self) -> &T {
        &self.inner
    }
}

impl<T: PartialEq> PartialEq for Box<T> {
    ghost eq = { T.eq };

    ghost laws = { T.laws };

    fn eq(&self, other: &Box<T>) -> bool {
        *self.get() == *other.get()
    }
}

impl<T: Eq> Eq for Box<T> {
    ghost laws = { T.Eq.laws };
}
