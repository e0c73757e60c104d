//! Copies of types, areas, shapes and structs: each equals what it was made from.

ghost use Rattle.std.specs.Prelude.{◌≡◌, IfOk};

use crate::area::{Area, RefType, ValueType};
use crate::shape::AreaShape;
use crate::structs::{FieldDef, StructDef};
use iv_words::{Box, Copied, Memory};
use std::alloc::Global;

impl ValueType {
    /// A type that equals this one.
    #[cycle(copies)]
    pub fn copy(&self, alloc: Global) -> Result<ValueType, Memory>
        ensures { IfOk result (λ copy. copy ≡ self.now) }
    {
        match self {
            ValueType::Bool => Ok(ValueType::Bool),
            ValueType::Int(kind) => Ok(ValueType::Int(*kind)),
            ValueType::Ix(length) => Ok(ValueType::Ix(*length)),
            ValueType::Bits(word) => Ok(ValueType::Bits(*word)),
            ValueType::Ref(reference) => Ok(ValueType::Ref(reference.copy(alloc)?)),
        }
    }
}

impl RefType {
    /// A type that equals this one.
    #[cycle(copies)]
    pub fn copy(&self, alloc: Global) -> Result<RefType, Memory>
        ensures { IfOk result (λ copy. copy ≡ self.now) }
    {
        Ok(RefType {
            constant: self.constant,
            region: self.region,
            area: self.area.copy(alloc)?,
        })
    }
}

impl Area {
    /// An area that equals this one.
    #[cycle(copies)]
    pub fn copy(&self, alloc: Global) -> Result<Area, Memory>
        ensures { IfOk result (λ copy. copy ≡ self.now) }
    {
        match self {
            Area::Stored(held) => Ok(Area::Stored(Box::new(alloc, held.copy(alloc)?)?)),
            Area::Array(length, element) => {
                Ok(Area::Array(*length, Box::new(alloc, element.copy(alloc)?)?))
            }
            Area::Struct(number) => Ok(Area::Struct(*number)),
        }
    }
}

impl AreaShape {
    /// A shape that equals this one.
    pub fn copy(&self, alloc: Global) -> Result<AreaShape, Memory>
        ensures { IfOk result (λ copy. copy ≡ self.now) }
    {
        match self {
            AreaShape::Stored(held) => Ok(AreaShape::Stored(held.copy(alloc)?)),
            AreaShape::Array(length, element) => {
                Ok(AreaShape::Array(*length, Box::new(alloc, element.copy(alloc)?)?))
            }
            AreaShape::Struct(name) => Ok(AreaShape::Struct(name.copy(alloc)?)),
        }
    }
}

impl FieldDef {
    /// A field that equals this one.
    pub fn copy(&self, alloc: Global) -> Result<FieldDef, Memory>
        ensures { IfOk result (λ copy. copy ≡ self.now) }
    {
        Ok(FieldDef {
            name: self.name.copy(alloc)?,
            area: self.area.copy(alloc)?,
        })
    }
}

impl StructDef {
    /// A struct that equals this one.
    pub fn copy(&self, alloc: Global) -> Result<StructDef, Memory>
        ensures { IfOk result (λ copy. copy ≡ self.now) }
    {
        Ok(StructDef {
            name: self.name.copy(alloc)?,
            fields: self.fields.copy(alloc)?,
        })
    }
}

impl Copied for ValueType {
    fn copied(&self, alloc: Global) -> Result<ValueType, Memory> {
        self.copy(alloc)
    }
}

impl Copied for Area {
    fn copied(&self, alloc: Global) -> Result<Area, Memory> {
        self.copy(alloc)
    }
}

impl Copied for FieldDef {
    fn copied(&self, alloc: Global) -> Result<FieldDef, Memory> {
        self.copy(alloc)
    }
}

impl Copied for StructDef {
    fn copied(&self, alloc: Global) -> Result<StructDef, Memory> {
        self.copy(alloc)
    }
}
