ghost use Rattle.std.specs.Prelude.{◌≡◌, IfOk};

use crate::check::Check;
use crate::expr::CoreExpr;
use crate::stmt::CoreStmt;
use area_types::{Area, ValueType};
use iv_words::{Copied, Memory, Seq, Word};
use run_records::Plain;
use std::alloc::Global;

/// An area of the module, with the first value of each of its cells.
#[derive(PartialEq, Eq)]
pub struct CoreArea {
    pub name: Word,
    pub constant: bool,
    pub area: Area,
    pub first: Seq<i128>,
}

/// A procedure of the outside, with the types of its parameters and of its result, if it has one.
#[derive(PartialEq, Eq)]
pub struct CoreImport {
    pub name: Word,
    pub params: Seq<ValueType>,
    pub result: Option<Plain>,
}

/// A parameter of a procedure.
#[derive(PartialEq, Eq)]
pub struct CoreParam {
    pub name: Word,
    pub ty: ValueType,
}

/// A `requires`, where `before`, or an `ensures`, with its check.
#[derive(PartialEq, Eq)]
pub struct CoreContract {
    pub before: bool,
    pub cond: CoreExpr,
    pub check: Check,
}

/// A procedure. `locals` has the types of its parameters and then of its other locals in order of text, which are numbered so.
#[derive(PartialEq, Eq)]
pub struct CoreProc {
    pub name: Word,
    pub exported: bool,
    pub params: Seq<CoreParam>,
    pub result: Option<ValueType>,
    pub contracts: Seq<CoreContract>,
    pub locals: Seq<ValueType>,
    pub body: Seq<CoreStmt>,
}

impl CoreArea {
    /// An area that equals this one.
    pub fn copy(&self, alloc: Global) -> Result<CoreArea, Memory>
        ensures { IfOk result (λ t. t ≡ self.now) }
    {
        Ok(CoreArea {
            name: self.name.copy(alloc)?,
            constant: self.constant,
            area: self.area.copy(alloc)?,
            first: self.first.copy(alloc)?,
        })
    }
}

impl CoreImport {
    /// An import that equals this one.
    pub fn copy(&self, alloc: Global) -> Result<CoreImport, Memory>
        ensures { IfOk result (λ t. t ≡ self.now) }
    {
        Ok(CoreImport {
            name: self.name.copy(alloc)?,
            params: self.params.copy(alloc)?,
            result: self.result,
        })
    }
}

impl CoreParam {
    /// A parameter that equals this one.
    pub fn copy(&self, alloc: Global) -> Result<CoreParam, Memory>
        ensures { IfOk result (λ t. t ≡ self.now) }
    {
        Ok(CoreParam {
            name: self.name.copy(alloc)?,
            ty: self.ty.copy(alloc)?,
        })
    }
}

impl CoreContract {
    /// A contract that equals this one.
    pub fn copy(&self, alloc: Global) -> Result<CoreContract, Memory>
        ensures { IfOk result (λ t. t ≡ self.now) }
    {
        Ok(CoreContract {
            before: self.before,
            cond: self.cond.copy(alloc)?,
            check: self.check,
        })
    }
}

impl CoreProc {
    /// A procedure that equals this one.
    pub fn copy(&self, alloc: Global) -> Result<CoreProc, Memory>
        ensures { IfOk result (λ t. t ≡ self.now) }
    {
        Ok(CoreProc {
            name: self.name.copy(alloc)?,
            exported: self.exported,
            params: self.params.copy(alloc)?,
            result: Copied::copied(&self.result, alloc)?,
            contracts: self.contracts.copy(alloc)?,
            locals: self.locals.copy(alloc)?,
            body: self.body.copy(alloc)?,
        })
    }
}

impl Copied for CoreArea {
    fn copied(&self, alloc: Global) -> Result<CoreArea, Memory> {
        self.copy(alloc)
    }
}

impl Copied for CoreImport {
    fn copied(&self, alloc: Global) -> Result<CoreImport, Memory> {
        self.copy(alloc)
    }
}

impl Copied for CoreParam {
    fn copied(&self, alloc: Global) -> Result<CoreParam, Memory> {
        self.copy(alloc)
    }
}

impl Copied for CoreContract {
    fn copied(&self, alloc: Global) -> Result<CoreContract, Memory> {
        self.copy(alloc)
    }
}

impl Copied for CoreProc {
    fn copied(&self, alloc: Global) -> Result<CoreProc, Memory> {
        self.copy(alloc)
    }
}

// Each tree is dropped by a function of this crate: one that is derived would be proved again in each crate that drops a tree.

impl Drop for CoreArea {
    fn drop(self) {
        let CoreArea {
            name: _,
            constant: _,
            area: _,
            first: _,
        } = self;
    }
}

impl Drop for CoreImport {
    fn drop(self) {
        let CoreImport {
            name: _,
            params: _,
            result: _,
        } = self;
    }
}

impl Drop for CoreParam {
    fn drop(self) {
        let CoreParam { name: _, ty: _ } = self;
    }
}

impl Drop for CoreContract {
    fn drop(self) {
        let CoreContract {
            before: _,
            cond: _,
            check: _,
        } = self;
    }
}

impl Drop for CoreProc {
    fn drop(self) {
        let CoreProc {
            name: _,
            exported: _,
            params: _,
            result: _,
            contracts: _,
            locals: _,
            body: _,
        } = self;
    }
}
