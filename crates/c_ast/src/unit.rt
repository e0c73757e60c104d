ghost use Rattle.std.specs.Prelude.{◌≡◌, IfOk};

use crate::expr::CInit;
use crate::stmt::CStmt;
use crate::types::{CBase, CType};
use iv_words::{Copied, Memory, Seq, Word};
use std::alloc::Global;

/// A member of a struct: of a type, or an array of `length` elements of it.
#[derive(Drop, PartialEq, Eq)]
pub struct CMember {
    pub name: Word,
    pub base: CBase,
    pub length: Option<u32>,
}

/// `struct NAME { .. };` with its members in order (C99 6.7.2.1).
#[derive(Drop, PartialEq, Eq)]
pub struct CStruct {
    pub name: Word,
    pub members: Seq<CMember>,
}

/// `extern RESULT NAME(PARAMS);`, a function that is defined outside of the unit.
#[derive(Drop, PartialEq, Eq)]
pub struct CExtern {
    pub name: Word,
    pub params: Seq<CType>,
    pub result: CType,
}

/// `static BASE NAME = INIT;`, an object of file scope; `constant` is `const`.
#[derive(Drop, PartialEq, Eq)]
pub struct CObject {
    pub name: Word,
    pub constant: bool,
    pub base: CBase,
    pub init: CInit,
}

/// A parameter of a function: a name that holds a value for good.
#[derive(Drop, PartialEq, Eq)]
pub struct CParam {
    pub name: Word,
    pub ty: CType,
}

/// A function with its body (C99 6.9.1); `hidden` is `static`.
#[derive(Drop, PartialEq, Eq)]
pub struct CFunction {
    pub hidden: bool,
    pub name: Word,
    pub params: Seq<CParam>,
    pub result: CType,
    pub body: Seq<CStmt>,
}

/// A translation unit (C99 6.9): structs, externs, objects of file scope and functions, each list in text order.
///
/// It always includes `<stdint.h>` and `<stdbool.h>` and declares `extern void ivory_stop(uint32_t);` first.
#[derive(Drop, PartialEq, Eq)]
pub struct CUnit {
    pub structs: Seq<CStruct>,
    pub externs: Seq<CExtern>,
    pub objects: Seq<CObject>,
    pub functions: Seq<CFunction>,
}

impl CMember {
    /// A member that equals this one.
    pub fn copy(&self, alloc: Global) -> Result<CMember, Memory>
        ensures { IfOk result (λ c. c ≡ self.now) }
    {
        Ok(CMember {
            name: self.name.copy(alloc)?,
            base: self.base.copy(alloc)?,
            length: self.length,
        })
    }
}

impl CStruct {
    /// A struct that equals this one.
    pub fn copy(&self, alloc: Global) -> Result<CStruct, Memory>
        ensures { IfOk result (λ c. c ≡ self.now) }
    {
        Ok(CStruct {
            name: self.name.copy(alloc)?,
            members: self.members.copy(alloc)?,
        })
    }
}

impl CExtern {
    /// An extern that equals this one.
    pub fn copy(&self, alloc: Global) -> Result<CExtern, Memory>
        ensures { IfOk result (λ c. c ≡ self.now) }
    {
        Ok(CExtern {
            name: self.name.copy(alloc)?,
            params: self.params.copy(alloc)?,
            result: self.result.copy(alloc)?,
        })
    }
}

impl CObject {
    /// An object that equals this one.
    pub fn copy(&self, alloc: Global) -> Result<CObject, Memory>
        ensures { IfOk result (λ c. c ≡ self.now) }
    {
        Ok(CObject {
            name: self.name.copy(alloc)?,
            constant: self.constant,
            base: self.base.copy(alloc)?,
            init: self.init.copy(alloc)?,
        })
    }
}

impl CParam {
    /// A parameter that equals this one.
    pub fn copy(&self, alloc: Global) -> Result<CParam, Memory>
        ensures { IfOk result (λ c. c ≡ self.now) }
    {
        Ok(CParam {
            name: self.name.copy(alloc)?,
            ty: self.ty.copy(alloc)?,
        })
    }
}

impl CFunction {
    /// A function that equals this one.
    pub fn copy(&self, alloc: Global) -> Result<CFunction, Memory>
        ensures { IfOk result (λ c. c ≡ self.now) }
    {
        Ok(CFunction {
            hidden: self.hidden,
            name: self.name.copy(alloc)?,
            params: self.params.copy(alloc)?,
            result: self.result.copy(alloc)?,
            body: self.body.copy(alloc)?,
        })
    }
}

impl CUnit {
    /// A unit that equals this one.
    pub fn copy(&self, alloc: Global) -> Result<CUnit, Memory>
        ensures { IfOk result (λ c. c ≡ self.now) }
    {
        Ok(CUnit {
            structs: self.structs.copy(alloc)?,
            externs: self.externs.copy(alloc)?,
            objects: self.objects.copy(alloc)?,
            functions: self.functions.copy(alloc)?,
        })
    }
}

impl Copied for CMember {
    fn copied(&self, alloc: Global) -> Result<CMember, Memory> {
        self.copy(alloc)
    }
}

impl Copied for CStruct {
    fn copied(&self, alloc: Global) -> Result<CStruct, Memory> {
        self.copy(alloc)
    }
}

impl Copied for CExtern {
    fn copied(&self, alloc: Global) -> Result<CExtern, Memory> {
        self.copy(alloc)
    }
}

impl Copied for CObject {
    fn copied(&self, alloc: Global) -> Result<CObject, Memory> {
        self.copy(alloc)
    }
}

impl Copied for CParam {
    fn copied(&self, alloc: Global) -> Result<CParam, Memory> {
        self.copy(alloc)
    }
}

impl Copied for CFunction {
    fn copied(&self, alloc: Global) -> Result<CFunction, Memory> {
        self.copy(alloc)
    }
}
