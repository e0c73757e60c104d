//! Tables of structs.

ghost use Rattle.std.specs.Prelude.{◌≡◌, [], ◌∷◌, ◌++◌, map, IfOk, OnOk, OnErr, IsTrue};
ghost use Rattle.std.specs.List.{list_all};
ghost use Rattle.area_types.specs.Tables.{structs_of, is_field, fits_after};
ghost use Rattle.area_types.specs.View.{field_of, struct_of};

use crate::limits::is_field;
use crate::measure::fields_extent;
use crate::structs::{FieldDef, StructDef};
use iv_words::{IntKind, Memory, Seq};
use std::alloc::Global;
use std::marker::Model;

/// Structs, numbered from 0 in order of declaration, and the words of the items of bit data, numbered likewise.
///
/// Each struct has at least one field. It uses only structs before it and words of the table, and stores no reference. The
/// lengths in it are from 1 to 65,535. It has at most 65,535 bytes on the target t32, and at most 32 levels of arrays and
/// structs, itself included. Its number has 32 bits.
#[derive(Drop)]
pub struct StructTable {
    pub structs: Seq<StructDef>,
    pub words: Seq<IntKind>,
}

impl Model for StructTable {
    ghost use Rattle.std.specs.Prelude.{map, IsTrue};
    ghost use Rattle.area_types.specs.Tables.{Table, is_table};
    ghost use Rattle.area_types.specs.View.{struct_of};
    ghost use Rattle.area_types.specs.contracts.area.Area as area;
    ghost use Rattle.std.specs.Coded.{codes};

    ghost Value = { Table };

    ghost coded = { Prim.hlevel (codes, area.the_row.coded) };

    ghost view = { λ t. record { structs = t.structs; words = t.words } };

    ghost invariant = { λ t. IsTrue (is_table (map struct_of t.structs) t.words) };

    ghost inverse = { λ t. record { structs = t.structs; words = t.words } };
}

fn words_copy(alloc: Global, words: &[IntKind]) -> Result<Seq<IntKind>, Memory>
    ensures { IfOk result (λ copy. copy ≡ words.now) }
{
    let mut copy = Seq::with_capacity(alloc, words.len())?;
    for word in words {
        copy.push(*word)?;
    }
    Ok(copy)
}

/// Whether each field may stand in a struct, where there are so many structs and words before it.
fn are_fields(fields: &[FieldDef], structs: usize, words: usize) -> bool
    ensures { result ≡ list_all (is_field structs words) (map field_of fields.now) }
{
    for field in fields {
        if !is_field(field, structs, words) {
            return false;
        }
    }
    true
}

fn fits_after(d: &StructDef, structs: &[StructDef], words: &[IntKind]) -> bool
    ensures { result ≡ fits_after (map struct_of structs.now) words.now (struct_of d.now) }
{
    let fields = d.fields.as_slice();
    if fields.len() == 0 || !are_fields(fields, structs.len(), words.len()) {
        return false;
    }
    fields_extent(fields, structs, words).is_small() && u32::try_from(structs.len()).is_ok()
}

impl StructTable {
    /// The empty table, which takes the memory that it grows by from `alloc`.
    pub fn new(alloc: Global) -> StructTable
        ensures { result ≡ record { structs = []; words = [] } }
    {
        StructTable {
            structs: Seq::new(alloc),
            words: Seq::new(alloc),
        }
    }

    /// A table that equals this one.
    pub fn copy(&self, alloc: Global) -> Result<StructTable, Memory>
        ensures { IfOk result (λ copy. copy ≡ self.now) }
    {
        Ok(StructTable {
            structs: self.structs.copy(alloc)?,
            words: words_copy(alloc, self.words.as_slice())?,
        })
    }

    /// Whether the table may have the struct as its next one.
    pub fn struct_fits(&self, d: &StructDef) -> bool
        ensures { result ≡ fits_after (structs_of self.now) self.now.words (struct_of d.now) }
    {
        fits_after(d, self.structs.as_slice(), self.words.as_slice())
    }

    /// Adds the next struct. For want of memory the table stays as it was.
    pub fn add_struct(&mut self, d: StructDef) -> Result<(), Memory>
        requires { IsTrue (fits_after (structs_of self.old) self.old.words (struct_of d)) }
        ensures ok { OnOk result (self.new ≡ record self.old { structs = self.old.structs ++ d ∷ [] }) }
        ensures err { OnErr result (self.new ≡ self.old) }
    {
        self.structs.push(d)
    }

    /// Adds the word of the next item of bit data. For want of memory the table stays as it was.
    pub fn add_word(&mut self, w: IntKind) -> Result<(), Memory>
        ensures ok { OnOk result (self.new ≡ record self.old { words = self.old.words ++ w ∷ [] }) }
        ensures err { OnErr result (self.new ≡ self.old) }
    {
        self.words.push(w)
    }
}
