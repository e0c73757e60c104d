//! What stays the same in a run: a unit for a target, with its types written out.

ghost use Rattle.std.specs.Prelude.{◌≡◌, [], map, IfOk};
ghost use Rattle.c_ast.specs.Structs.{table, tree};
ghost use Rattle.c_objects.specs.Shapes.{field_of, type_tree, base_of};

use c_ast::{CUnit, Target};
use c_objects::{Base, Field, ObjectType, make_types, type_of};
use iv_words::{Memory, Seq};
use std::alloc::Global;
use std::marker::Model;

/// A unit for a target. Contracts see it as both.
#[derive(Drop)]
pub struct Program {
    unit: CUnit,
    target: Target,
    types: Seq<Field>,
}

impl Model for Program {
    ghost use Rattle.std.specs.Prelude.{◌≡◌, [], map};
    ghost use Rattle.std.specs.Coded.{codes};
    ghost use Rattle.c_ast.specs.Structs.{table};
    ghost use Rattle.c_ast.specs.contracts.CExpr as expr;
    ghost use Rattle.c_ast.specs.contracts.CInit as init;
    ghost use Rattle.c_ast.specs.contracts.CStmt as stmt;
    ghost use Rattle.c_objects.specs.Shapes.{field_of};
    ghost use Rattle.c_expressions.specs.Programs.{Parts};

    ghost Value = { Parts };

    ghost coded = { Prim.hlevel (codes, expr.the_row.coded, init.the_row.coded, stmt.the_row.coded) };

    ghost view = { λ p. record { unit = p.unit; target = p.target } };

    ghost invariant = { λ p. map field_of p.types ≡ table [] p.unit.structs };
}

impl Program {
    /// Writes the types of a unit out.
    pub fn new(alloc: Global, unit: CUnit, target: Target) -> Result<Program, Memory>
        ensures { IfOk result (λ p. p ≡ record { unit = unit; target = target }) }
    {
        let types = make_types(alloc, unit.structs.as_slice())?;
        Ok(Program {
            unit,
            target,
            types,
        })
    }

    pub fn unit(&self) -> &CUnit
        ensures { result.now ≡ self.now.unit }
    {
        &self.unit
    }

    pub fn target(&self) -> Target
        ensures { result ≡ self.now.target }
    {
        self.target
    }

    /// The types that the unit declares.
    pub fn types(&self) -> &[Field]
        ensures { map field_of result.now ≡ table [] self.now.unit.structs }
    {
        self.types.as_slice()
    }

    /// The type of a base.
    pub fn type_of<'a>(&'a self, b: Base<'a>) -> ObjectType<'a>
        ensures { type_tree result ≡ tree self.now.unit.structs (base_of b.entry) }
    {
        type_of(self.types.as_slice(), b)
    }
}
