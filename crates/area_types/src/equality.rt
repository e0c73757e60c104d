//! Whether types and areas are the same, as contracts see them.

ghost use Rattle.std.specs.Prelude.{◌≡◌, IsTrue, ◌↔◌};

use crate::area::{Area, RefType, ValueType};

impl ValueType {
    /// Whether the two are one type.
    #[cycle(same)]
    pub fn same(&self, other: &ValueType) -> bool
        ensures { IsTrue result ↔ (self.now ≡ other.now) }
    {
        match (self, other) {
            (ValueType::Bool, ValueType::Bool) => true,
            (ValueType::Int(kind), ValueType::Int(other)) => *kind == *other,
            (ValueType::Ix(length), ValueType::Ix(other)) => *length == *other,
            (ValueType::Bits(word), ValueType::Bits(other)) => *word == *other,
            (ValueType::Ref(reference), ValueType::Ref(other)) => reference.same(other),
            _ => false,
        }
    }
}

impl RefType {
    /// Whether the two are one type.
    #[cycle(same)]
    pub fn same(&self, other: &RefType) -> bool
        ensures { IsTrue result ↔ (self.now ≡ other.now) }
    {
        self.constant == other.constant
            && self.region == other.region
            && self.area.same(&other.area)
    }
}

impl Area {
    /// Whether the two are one area type.
    #[cycle(same)]
    pub fn same(&self, other: &Area) -> bool
        ensures { IsTrue result ↔ (self.now ≡ other.now) }
    {
        match (self, other) {
            (Area::Stored(held), Area::Stored(other)) => held.same(other),
            (Area::Array(length, element), Area::Array(other_length, other)) => {
                *length == *other_length && element.same(other)
            }
            (Area::Struct(number), Area::Struct(other)) => *number == *other,
            _ => false,
        }
    }
}
