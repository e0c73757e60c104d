ghost use Rattle.std.specs.Prelude.{◌≡◌, IfOk};

use iv_words::{Memory, Seq};
use std::alloc::Global;

/// What a name has and what an expression comes to: a whole number, or a reference to a part of the area of that number.
#[derive(Drop)]
pub enum Value {
    Num(i128),
    Ref(usize, Seq<u32>),
}

impl Value {
    /// A value that equals this one.
    pub fn copy(&self, alloc: Global) -> Result<Value, Memory>
        ensures { IfOk result (λ v. v ≡ self.now) }
    {
        match self {
            Value::Num(v) => Ok(Value::Num(*v)),
            Value::Ref(area, path) => Ok(Value::Ref(*area, path.copy(alloc)?)),
        }
    }
}
