//! Objects, and what reads, writes, declarations and the ends of blocks do to them.

ghost use Rattle.std.specs.Prelude.{◌≡◌, ◌≤◌, [], IfOk, OnOk, length, map, take, drop, replicate};
ghost use Rattle.std.specs.Option.{option_map};
ghost use Rattle.c_memory.specs.Access.{access_fault, read_object, write_fault, written};
ghost use Rattle.c_memory.specs.Blocks as blocks;
ghost use Rattle.c_memory.specs.Bytes as memory;
ghost use Rattle.c_memory.specs.Codecs.{numbers};
ghost use Rattle.c_memory.specs.Copies.{read_each, write_each};
ghost use Rattle.c_memory.specs.Standing.{cast_fault, refuses_cast};
ghost use Rattle.c_memory.specs.Objects.{is_live};
ghost use Rattle.c_memory.specs.Seen.{with_scalars};
ghost use Rattle.c_ast.specs.Targets.{table_of};
ghost use Rattle.c_ast.specs.Scalars.{metric_of};
ghost use Rattle.c_meaning.specs.Memory.{memory_of, scalar_table, is_base};
ghost use Rattle.type_trees.specs.Layouts.{size};
ghost use Rattle.c_objects.specs.Bytes.{byte_of};
ghost use Rattle.c_objects.specs.Shapes.{type_tree, base_of};
ghost use Rattle.c_objects.specs.Faults.{fault_of, Answers, Writes, AddsAll};
ghost use Rattle.c_objects.specs.Store.{representation, object_of, objects_of, at_place};

use crate::bytes::{Byte, decode, encode};
use crate::faults::{Fault, Refusal};
use crate::laid::{is_laid, lay_type};
use crate::layout::{size_of, width};
use crate::shape::{Base, ObjectType};
use crate::standing::is_base_at;
use c_ast::{CScalar, Target};
use iv_words::{Memory, Seq};
use std::alloc::Global;

/// An object: its type, whether it is const, whether it is still there, and its bytes.
#[derive(Drop)]
pub struct Object<'a> {
    ty: ObjectType<'a>,
    constant: bool,
    live: bool,
    bytes: Vec<Byte>,
}

/// All objects that were ever made, by number.
#[derive(Drop)]
pub struct Objects<'a> {
    items: Vec<Object<'a>>,
}

impl<'a> Object<'a> {
    /// Why a scalar may not be accessed.
    fn access_fault(&self, t: Target, at: u64, s: CScalar) -> Result<Option<Fault>, Memory>
        ensures { IfOk result (λ f. option_map fault_of f ≡ access_fault (representation t) (object_of self.now) (at, s)) }
    {
        if !self.live {
            return Ok(Some(Fault::Dead));
        }
        match is_laid(t, self.ty, at, s) {
            None => Err(Memory),
            Some(true) => Ok(None),
            Some(false) => Ok(Some(Fault::BadAccess)),
        }
    }

    /// Why it may not be written.
    fn write_fault(&self, t: Target, at: u64, s: CScalar) -> Result<Option<Fault>, Memory>
        ensures { IfOk result (λ f. option_map fault_of f ≡ write_fault (representation t) (object_of self.now) (at, s)) }
    {
        match self.access_fault(t, at, s) {
            Err(memory) => Err(memory),
            Ok(Some(fault)) => Ok(Some(fault)),
            Ok(None) => Ok(if self.constant {
                Some(Fault::ConstWrite)
            } else {
                None
            }),
        }
    }

    /// So many bytes from an offset on, or as many as there are.
    fn bytes_at(&self, at: u64, many: usize) -> &[Byte]
        ensures bytes { map byte_of result.now ≡ take many (drop at (map byte_of self.now.bytes.items)) }
        ensures few { length result.now ≤ many }
    {
        let from = (at as usize).min(self.bytes.len());
        let to = from + many.min(self.bytes.len() - from);
        &self.bytes[from..to]
    }

    /// The value of a scalar.
    fn read(&self, t: Target, at: u64, s: CScalar) -> Result<i128, Refusal>
        ensures { Answers (read_object (representation t) (object_of self.now) (at, s)) result }
    {
        match self.access_fault(t, at, s) {
            Err(_) => Err(Refusal::Memory),
            Ok(Some(fault)) => Err(Refusal::Fault(fault)),
            Ok(None) => match decode(t, s, self.bytes_at(at, width(s) as usize)) {
                Some(v) => Ok(v),
                None => Err(Refusal::Fault(Fault::Indeterminate)),
            },
        }
    }

    /// Puts a value into a scalar.
    fn put(&mut self, t: Target, at: u64, s: CScalar, v: i128)
        ensures { object_of self.new ≡ written (representation t) (object_of self.old) (at, s) v }
    {
        encode(t, s, at as usize, v, self.bytes.as_mut_slice());
    }

    fn cast_fault(&self, t: Target, wanted: Base, at: u64) -> Result<Option<Fault>, Memory>
        ensures { IfOk result (λ f. option_map fault_of f ≡ cast_fault (metric_of t) (is_base (base_of wanted.entry)) (Some (object_of self.now)) at) }
    {
        if !self.live {
            return Ok(Some(Fault::Dead));
        }
        match is_base_at(t, wanted, self.ty, at) {
            None => Err(Memory),
            Some(true) => Ok(None),
            Some(false) => Ok(Some(Fault::BadAccess)),
        }
    }

    fn end(&mut self)
        ensures { object_of self.new ≡ blocks.ended (object_of self.old) }
    {
        self.live = false;
    }
}

/// So many bytes to which nothing was written.
fn blank(alloc: Global, many: usize) -> Result<Vec<Byte>, Memory>
    ensures { IfOk result (λ v. map byte_of v.items ≡ replicate many memory.Unset) }
{
    let mut bytes = Seq::with_capacity(alloc, many)?;
    for _ in 0..many {
        bytes.push(Byte::Unset)?;
    }
    Ok(bytes.into_vec())
}

/// Puts values into scalars, in order, as many as there are of both.
fn fill(t: Target, places: &[(u64, CScalar)], values: &[i128], bytes: &mut [Byte])
    ensures { map byte_of bytes.new ≡ with_scalars (representation t) (map byte_of bytes.old) places.now values.now }
{
    for i in 0..places.len().min(values.len()) {
        let place = places[i];
        encode(t, place.1, place.0 as usize, values[i], bytes);
    }
}

impl<'a> Objects<'a> {
    /// No objects.
    pub fn new(alloc: Global) -> Objects<'a>
        ensures { objects_of result ≡ [] }
    {
        Objects {
            items: Vec::new(alloc),
        }
    }

    /// How many objects were made, which is the number of the next.
    pub fn len(&self) -> usize
        ensures { result ≡ length (objects_of self.now) }
    {
        self.items.len()
    }

    /// Whether an object is still there.
    pub fn is_live(&self, o: usize) -> bool
        ensures { result ≡ is_live (objects_of self.now) o }
    {
        match self.items.get(o) {
            None => false,
            Some(object) => object.live,
        }
    }

    /// The value of a scalar of an object.
    pub fn read(&self, t: Target, o: usize, at: u64, s: CScalar) -> Result<i128, Refusal>
        ensures { Answers ((memory_of t).read (objects_of self.now) o (at, s)) result }
    {
        match self.items.get(o) {
            None => Err(Refusal::Fault(Fault::Dead)),
            Some(object) => object.read(t, at, s),
        }
    }

    /// Why a scalar of an object may not be written, whatever is to be written.
    pub fn refuses(&self, t: Target, o: usize, at: u64, s: CScalar) -> Result<Option<Fault>, Memory>
        ensures { IfOk result (λ f. option_map fault_of f ≡ (memory_of t).refuses (objects_of self.now) o (at, s)) }
    {
        match self.items.get(o) {
            None => Ok(Some(Fault::Dead)),
            Some(object) => object.write_fault(t, at, s),
        }
    }

    /// Puts a value into a scalar of an object, unless that is refused.
    pub fn write(
        &mut self,
        t: Target,
        o: usize,
        at: u64,
        s: CScalar,
        v: i128,
    ) -> Result<(), Refusal>
        ensures { Writes ((memory_of t).write (objects_of self.old) o (at, s) v) (objects_of self.new) result }
    {
        match self.refuses(t, o, at, s) {
            Err(_) => Err(Refusal::Memory),
            Ok(Some(fault)) => Err(Refusal::Fault(fault)),
            Ok(None) => {
                self.put_at(t, o, at, s, v);
                Ok(())
            }
        }
    }

    fn put_at(&mut self, t: Target, o: usize, at: u64, s: CScalar, v: i128)
        ensures { objects_of self.new ≡ at_place o (λ ob. written (representation t) ob (at, s) v) (objects_of self.old) }
    {
        if o < self.items.len() {
            self.items[o].put(t, at, s, v);
        }
    }

    fn end_at(&mut self, o: usize)
        ensures ended { objects_of self.new ≡ at_place o blocks.ended (objects_of self.old) }
        ensures same { length self.new.items.items ≡ length self.old.items.items }
    {
        if o < self.items.len() {
            self.items[o].end();
        }
    }

    /// Makes an object without values.
    pub fn create(&mut self, alloc: Global, t: Target, ty: ObjectType<'a>) -> Result<(), Memory>
        ensures { OnOk result (objects_of self.new ≡ (memory_of t).create (objects_of self.old) (type_tree ty.entry)) }
    {
        let Some(many) = size_of(t, ty) else {
            return Err(Memory);
        };
        let bytes = blank(alloc, many as usize)?;
        let object = Object {
            ty,
            constant: false,
            live: true,
            bytes,
        };
        self.items.push(object).map_err(|_| Memory)
    }

    /// Makes an object with these values in its scalars, in order.
    pub fn initialize(
        &mut self,
        alloc: Global,
        t: Target,
        ty: ObjectType<'a>,
        constant: bool,
        values: &[i128],
    ) -> Result<(), Memory>
        ensures { OnOk result (objects_of self.new ≡ (memory_of t).initialize (objects_of self.old) (type_tree ty.entry) constant values.now) }
    {
        let Some(many) = size_of(t, ty) else {
            return Err(Memory);
        };
        let mut places = Seq::new(alloc);
        lay_type(t, ty, 0, &mut places)?;
        let mut bytes = blank(alloc, many as usize)?;
        fill(t, places.as_slice(), values, bytes.as_mut_slice());
        let object = Object {
            ty,
            constant,
            live: true,
            bytes,
        };
        self.items.push(object).map_err(|_| Memory)
    }

    /// Adds the values of scalars of an object.
    pub fn read_each(
        &self,
        t: Target,
        o: usize,
        places: &[(u64, CScalar)],
        out: &mut Seq<i128>,
    ) -> Result<(), Refusal>
        ensures { AddsAll (read_each (memory_of t).read (objects_of self.now) o places.now) out.old out.new result }
    {
        for place in places {
            match self.read(t, o, place.0, place.1) {
                Err(refusal) => return Err(refusal),
                Ok(v) => {
                    if out.push(v).is_err() {
                        return Err(Refusal::Memory);
                    }
                }
            }
        }
        Ok(())
    }

    /// Puts values into scalars of an object, one after another.
    pub fn write_each(
        &mut self,
        t: Target,
        o: usize,
        places: &[(u64, CScalar)],
        values: &[i128],
    ) -> Result<(), Refusal>
        ensures { Writes (write_each (memory_of t).write (objects_of self.old) o places.now values.now) (objects_of self.new) result }
    {
        for i in 0..places.len().min(values.len()) {
            let place = places[i];
            match self.write(t, o, place.0, place.1, values[i]) {
                Err(refusal) => return Err(refusal),
                Ok(()) => {}
            }
        }
        Ok(())
    }

    /// Why a pointer to an offset of an object may not be cast to one to this base.
    pub fn refuses_cast(
        &self,
        t: Target,
        wanted: Base,
        o: usize,
        at: u64,
    ) -> Result<Option<Fault>, Memory>
        ensures { IfOk result (λ f. option_map fault_of f ≡ refuses_cast (metric_of t) (is_base (base_of wanted.entry)) (objects_of self.now) o at) }
    {
        match self.items.get(o) {
            None => Ok(Some(Fault::Dead)),
            Some(object) => object.cast_fault(t, wanted, at),
        }
    }

    /// Ends the objects from number k on.
    pub fn leave(&mut self, k: usize)
        ensures { objects_of self.new ≡ blocks.leave k (objects_of self.old) }
    {
        for i in k..self.items.len() {
            self.end_at(i);
        }
    }
}
