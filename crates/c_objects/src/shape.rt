ghost use Rattle.std.specs.Prelude.{◌≡◌, IfOk};

use c_ast::CScalar;
use iv_words::{Box, Memory, Seq, Word};
use std::alloc::Global;

/// The type of an object with its structs written out: a scalar, an array of so many elements, or a struct of a name.
#[cycle(shape)]
pub enum Shape {
    Leaf(CScalar),
    Many(u32, Box<Shape>),
    Struct(Word, Seq<Field>),
}

/// A member of a struct, with its name.
#[cycle(shape)]
pub enum Field {
    Named(Word, Shape),
}

/// What a pointer points to, and what a declaration makes: a scalar, or the struct of a name.
#[derive(Clone, Copy, Drop)]
pub enum Base<'a> {
    Scalar(CScalar),
    Struct(&'a Word),
}

/// The type of a part of an object. A struct that no unit declares has no members.
#[derive(Clone, Copy, Drop)]
pub enum ObjectType<'a> {
    Scalar(CScalar),
    Missing(&'a Word),
    Shaped(&'a Shape),
}

impl Shape {
    /// A type that equals this one.
    #[cycle(copies)]
    pub fn copy(&self, alloc: Global) -> Result<Shape, Memory>
        ensures { IfOk result (λ s. s ≡ self.now) }
    {
        match self {
            Shape::Leaf(s) => Ok(Shape::Leaf(*s)),
            Shape::Many(n, element) => {
                let element = Box::new(alloc, element.get().copy(alloc)?)?;
                Ok(Shape::Many(*n, element))
            }
            Shape::Struct(name, fields) => {
                let fields = copied_fields(fields, alloc)?;
                Ok(Shape::Struct(name.copy(alloc)?, fields))
            }
        }
    }
}

impl Field {
    /// A member that equals this one.
    #[cycle(copies)]
    pub fn copy(&self, alloc: Global) -> Result<Field, Memory>
        ensures { IfOk result (λ f. f ≡ self.now) }
    {
        match self {
            Field::Named(name, shape) => {
                let shape = shape.copy(alloc)?;
                Ok(Field::Named(name.copy(alloc)?, shape))
            }
        }
    }
}

#[cycle(copies)]
fn copied_fields(fields: &Seq<Field>, alloc: Global) -> Result<Seq<Field>, Memory>
    ensures { IfOk result (λ c. c ≡ fields.now) }
{
    let mut items = Seq::with_capacity(alloc, fields.len())?;
    for field in fields.iter() {
        items.push(field.copy(alloc)?)?;
    }
    Ok(items)
}

impl Drop for Shape {
    #[cycle(drops)]
    fn drop(self) {
        match self {
            Shape::Leaf(_) | Shape::Many(_, _) | Shape::Struct(_, _) => {}
        }
    }
}

impl Drop for Field {
    #[cycle(drops)]
    fn drop(self) {
        match self {
            Field::Named(_, _) => {}
        }
    }
}
