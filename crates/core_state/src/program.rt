//! What stays the same in a run: a core with its structs written out.

ghost use Rattle.std.specs.Prelude.{◌≡◌, map, IfOk, IfSome};
ghost use Rattle.std.specs.Option.{option_copied};
ghost use Rattle.area_types.specs.Tables.{written_out};
ghost use Rattle.area_types.specs.View.{area_of, type_of};
ghost use Rattle.bit_data.specs.Layouts.{IsLayout};
ghost use Rattle.core_tree.specs.Cores.{core_of};
ghost use Rattle.core_meaning.specs.Answers as answers;
ghost use Rattle.core_state.specs.Types.{written_of};

use crate::written::{Written, tree_of, trees_of};
use area_types::{Area, ValueType};
use bit_data::BitLayout;
use core_tree::{Core, CoreArea, CoreImport, CoreProc};
use iv_words::{Memory, Seq};
use std::alloc::Global;
use std::marker::Model;

/// A core with its structs written out. Contracts see it as its core.
#[derive(Drop)]
pub struct Program {
    core: Core,
    structs: Seq<Written>,
}

impl Model for Program {
    ghost use Rattle.std.specs.Prelude.{◌≡◌, map};
    ghost use Rattle.core_tree.specs.Cores.{Parts};
    ghost use Rattle.area_types.specs.Trees as trees;
    ghost use Rattle.area_types.specs.View.{struct_of};
    ghost use Rattle.core_state.specs.Types.{written_of};
    ghost use Rattle.area_types.specs.contracts.Area as area;
    ghost use Rattle.area_types.specs.contracts.ValueType as ty;
    ghost use Rattle.core_tree.specs.contracts.CoreExpr as expr;
    ghost use Rattle.core_tree.specs.contracts.CoreInit as init;
    ghost use Rattle.core_tree.specs.contracts.CoreStmt as stmt;
    ghost use Rattle.std.specs.Coded.{codes};

    ghost Value = { Parts };

    ghost coded = { Prim.hlevel (codes, area.the_row.coded, ty.the_row.coded, expr.the_row.coded, init.the_row.coded, stmt.the_row.coded) };

    ghost view = { λ p. p.core };

    ghost invariant = { λ p. map written_of p.structs ≡ trees.trees_of (map struct_of p.core.structs.structs) };
}

impl Program {
    /// Writes the structs of a core out.
    pub fn new(alloc: Global, core: Core) -> Result<Program, Memory>
        ensures { IfOk result (λ p. p ≡ core) }
    {
        let structs = trees_of(alloc, core.structs.structs.as_slice())?;
        Ok(Program { core, structs })
    }

    /// An area with its structs written out.
    pub fn written(&self, alloc: Global, area: &Area) -> Result<Written, Memory>
        ensures { IfOk result (λ t. written_of t ≡ written_out self.now.structs (area_of area.now)) }
    {
        tree_of(alloc, self.structs.as_slice(), area)
    }

    pub fn areas(&self) -> &[CoreArea]
        ensures { result.now ≡ self.now.areas }
    {
        self.core.areas.as_slice()
    }

    pub fn imports(&self) -> &[CoreImport]
        ensures { result.now ≡ self.now.imports }
    {
        self.core.imports.as_slice()
    }

    pub fn procs(&self) -> &[CoreProc]
        ensures { result.now ≡ self.now.procs }
    {
        self.core.procs.as_slice()
    }

    /// The layout of a type of bit data.
    pub fn layout(&self, ty: &ValueType) -> Option<&BitLayout>
        ensures value { option_copied result ≡ answers.layout_of (core_of self.now) (type_of ty.now) }
        ensures layout { IfSome result (λ l. IsLayout l.now) }
    {
        self.core.is_valid();
        match ty {
            ValueType::Bits(number) => self.core.layouts.get(*number as usize),
            ValueType::Bool | ValueType::Int(_) | ValueType::Ix(_) | ValueType::Ref(_) => None,
        }
    }
}
