//! The resolved module as a whole.

ghost use Rattle.std.specs.Prelude.{◌≡◌, IfOk};
ghost use Rattle.core_tree.specs.Cores.{core_of};
ghost use Rattle.core_tree.specs.Valid.{ValidCore};

use crate::items::{CoreArea, CoreImport, CoreProc};
use area_types::StructTable;
use bit_data::BitLayout;
use iv_words::{Memory, Seq};
use std::alloc::Global;
use std::marker::Model;

/// A module with its names resolved: what is well typed, and nothing else.
///
/// All numbers are in range, names are apart, calls go to procedures of lesser numbers, types and checks are those of the rules, and the
/// checks are numbered from 0 in the order of their tokens.
pub struct Core {
    pub structs: StructTable,
    pub layouts: Seq<BitLayout>,
    pub areas: Seq<CoreArea>,
    pub imports: Seq<CoreImport>,
    pub procs: Seq<CoreProc>,
}

impl Model for Core {
    ghost use Rattle.core_tree.specs.Cores.{Parts, core_of};
    ghost use Rattle.core_tree.specs.Valid.{ValidCore};
    ghost use Rattle.area_types.specs.contracts.area.Area as area;
    ghost use Rattle.area_types.specs.contracts.area.ValueType as ty;
    ghost use Rattle.core_tree.specs.contracts.expr.CoreExpr as expr;
    ghost use Rattle.core_tree.specs.contracts.init.CoreInit as init;
    ghost use Rattle.core_tree.specs.contracts.stmt.CoreStmt as stmt;
    ghost use Rattle.std.specs.Coded.{codes};

    ghost Value = { Parts };

    ghost coded = { Prim.hlevel (codes, area.the_row.coded, ty.the_row.coded, expr.the_row.coded, init.the_row.coded, stmt.the_row.coded) };

    ghost view = { λ c. record { structs = c.structs; layouts = c.layouts; areas = c.areas; imports = c.imports; procs = c.procs } };

    ghost invariant = { λ c. ValidCore (core_of (record { structs = c.structs; layouts = c.layouts; areas = c.areas; imports = c.imports; procs = c.procs })) };

    ghost inverse = { λ p. record { structs = p.structs; layouts = p.layouts; areas = p.areas; imports = p.imports; procs = p.procs } };
}

impl Drop for Core {
    fn drop(self) {
        let Core {
            structs: _,
            layouts: _,
            areas: _,
            imports: _,
            procs: _,
        } = self;
    }
}

impl Core {
    /// The core of these parts, which are well typed.
    pub fn new(
        structs: StructTable,
        layouts: Seq<BitLayout>,
        areas: Seq<CoreArea>,
        imports: Seq<CoreImport>,
        procs: Seq<CoreProc>,
    ) -> Core
        requires { ValidCore (core_of (record { structs = structs; layouts = layouts; areas = areas; imports = imports; procs = procs })) }
        ensures { result ≡ record { structs = structs; layouts = layouts; areas = areas; imports = imports; procs = procs } }
    {
        Core {
            structs,
            layouts,
            areas,
            imports,
            procs,
        }
    }

    /// Whoever has a core knows that it is well typed.
    pub fn is_valid(&self)
        ensures { ValidCore (core_of self.now) }
    {
        let _ = &self.procs;
    }

    /// A core that equals this one.
    pub fn copy(&self, alloc: Global) -> Result<Core, Memory>
        ensures { IfOk result (λ copy. copy ≡ self.now) }
    {
        let structs = self.structs.copy(alloc)?;
        let layouts = self.layouts.copy(alloc)?;
        let areas = self.areas.copy(alloc)?;
        let imports = self.imports.copy(alloc)?;
        let procs = self.procs.copy(alloc)?;
        Ok(Core {
            structs,
            layouts,
            areas,
            imports,
            procs,
        })
    }
}
