//! Types of areas with their structs written out, once for a run, so that a path is followed without a table.

ghost use Rattle.std.specs.Prelude.{◌≡◌, map, IfOk, MatchOption};
ghost use Rattle.type_trees.specs.Trees.{part};
ghost use Rattle.area_types.specs.Trees as trees;
ghost use Rattle.area_types.specs.View.{area_of, field_of, struct_of};
ghost use Rattle.area_types.specs.Syntax.{Struct};
ghost use Rattle.core_state.specs.Types.{written_of};

use area_types::{Area, FieldDef, StructDef, ValueType};
use iv_words::{Box, Memory, Seq};
use std::alloc::Global;

/// A stored value, an array of a length, or a struct of that number with its fields.
#[derive(Drop)]
pub enum Written {
    Leaf(ValueType),
    Many(u32, Box<Written>),
    Struct(usize, Seq<Written>),
}

impl Written {
    /// A type that equals this one.
    #[cycle(copies)]
    pub fn copy(&self, alloc: Global) -> Result<Written, Memory>
        ensures { IfOk result (λ t. t ≡ self.now) }
    {
        match self {
            Written::Leaf(held) => Ok(Written::Leaf(held.copy(alloc)?)),
            Written::Many(length, element) => {
                Ok(Written::Many(*length, Box::new(alloc, element.get().copy(alloc)?)?))
            }
            Written::Struct(number, fields) => {
                Ok(Written::Struct(*number, copied_all(fields, alloc)?))
            }
        }
    }

    /// The part to which a path leads, where it does not leave the type.
    pub fn part(&self, path: &[u32]) -> Option<&Written>
        ensures { MatchOption result (part (written_of self.now) path.now ≡ None) (λ found. part (written_of self.now) path.now ≡ Some (written_of found.now)) }
    {
        let Some((step, rest)) = path.split_first() else {
            return Some(self);
        };
        match self {
            Written::Leaf(_) => None,
            Written::Many(length, element) => {
                if *step < *length {
                    element.get().part(rest)
                } else {
                    None
                }
            }
            Written::Struct(_, fields) => match fields.get(*step as usize) {
                Some(field) => field.part(rest),
                None => None,
            },
        }
    }
}

#[cycle(copies)]
fn copied_all(types: &Seq<Written>, alloc: Global) -> Result<Seq<Written>, Memory>
    ensures { IfOk result (λ c. c ≡ types.now) }
{
    let mut items = Seq::with_capacity(alloc, types.len())?;
    for ty in types.iter() {
        items.push(ty.copy(alloc)?)?;
    }
    Ok(items)
}

/// The area, written out over the structs so far.
pub fn tree_of(alloc: Global, structs: &[Written], area: &Area) -> Result<Written, Memory>
    ensures { IfOk result (λ t. written_of t ≡ trees.tree_of (map written_of structs.now) (area_of area.now)) }
{
    match area {
        Area::Stored(held) => Ok(Written::Leaf(held.get().copy(alloc)?)),
        Area::Array(length, element) => {
            let element = tree_of(alloc, structs, element.get())?;
            Ok(Written::Many(*length, Box::new(alloc, element)?))
        }
        Area::Struct(number) => numbered(alloc, structs, *number as usize),
    }
}

/// The struct of that number; one that is not there has no fields.
fn numbered(alloc: Global, structs: &[Written], number: usize) -> Result<Written, Memory>
    ensures { IfOk result (λ t. written_of t ≡ trees.tree_of (map written_of structs.now) (Struct number)) }
{
    match structs.get(number) {
        Some(found) => found.copy(alloc),
        None => Ok(Written::Struct(number, Seq::new(alloc))),
    }
}

fn fields_of(
    alloc: Global,
    structs: &[Written],
    fields: &[FieldDef],
) -> Result<Seq<Written>, Memory>
    ensures { IfOk result (λ ts. map written_of ts ≡ map (λ f. trees.tree_of (map written_of structs.now) f.area) (map field_of fields.now)) }
{
    let mut types = Seq::with_capacity(alloc, fields.len())?;
    for field in fields {
        types.push(tree_of(alloc, structs, &field.area)?)?;
    }
    Ok(types)
}

/// All structs, each over those before it.
pub fn trees_of(alloc: Global, structs: &[StructDef]) -> Result<Seq<Written>, Memory>
    ensures { IfOk result (λ ts. map written_of ts ≡ trees.trees_of (map struct_of structs.now)) }
{
    let mut types = Seq::with_capacity(alloc, structs.len())?;
    for found in structs {
        let fields = fields_of(alloc, types.as_slice(), found.fields.as_slice())?;
        types.push(Written::Struct(types.len(), fields))?;
    }
    Ok(types)
}
