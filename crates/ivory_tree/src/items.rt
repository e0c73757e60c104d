ghost use Rattle.std.specs.Prelude.{◌≡◌, IfOk};

use crate::expr::Expr;
use crate::inits::InitText;
use crate::stmt::Block;
use crate::types::{AreaText, TypeText};
use iv_words::{Copied, IntKind, Memory, Name, Seq, Span};
use std::alloc::Global;

/// A field of bit data with its width in bits; `truth` where it is declared as `bool`, of one bit.
#[derive(Drop, PartialEq, Eq)]
pub struct BitField {
    pub name: Name,
    pub width: u64,
    pub truth: bool,
    pub span: Span,
}

/// `bitdata NAME : WORD { .. }` with its fields in order, the first in the lowest bits.
#[derive(Drop, PartialEq, Eq)]
pub struct BitsItem {
    pub name: Name,
    pub word: IntKind,
    pub fields: Seq<BitField>,
    pub span: Span,
}

/// A field of a struct, from its name to its `;`.
#[derive(Drop, PartialEq, Eq)]
pub struct AreaField {
    pub name: Name,
    pub area: AreaText,
    pub span: Span,
}

/// `struct NAME { .. }` with its fields in order.
#[derive(Drop, PartialEq, Eq)]
pub struct StructItem {
    pub name: Name,
    pub fields: Seq<AreaField>,
    pub span: Span,
}

/// `area NAME : AREA = INIT;`, with or without `const` before it and an initializer.
#[derive(Drop, PartialEq, Eq)]
pub struct AreaItem {
    pub name: Name,
    pub constant: bool,
    pub area: AreaText,
    pub init: Option<InitText>,
    pub span: Span,
}

/// A parameter with its type.
#[derive(Drop, PartialEq, Eq)]
pub struct Param {
    pub name: Name,
    pub ty: TypeText,
    pub span: Span,
}

/// `NAME(PARAMS) -> RESULT`. That of an import has the place of its item, from `import` to `;`.
#[derive(Drop, PartialEq, Eq)]
pub struct Header {
    pub name: Name,
    pub params: Seq<Param>,
    pub result: Option<TypeText>,
    pub span: Span,
}

/// `requires(COND)`, where `before`, or `ensures(COND)`.
#[derive(Drop, PartialEq, Eq)]
pub struct Contract {
    pub before: bool,
    pub cond: Expr,
    pub span: Span,
}

/// A procedure with its contracts and its body; `exported` where it is written with `export`.
#[derive(Drop, PartialEq, Eq)]
pub struct ProcItem {
    pub exported: bool,
    pub header: Header,
    pub contracts: Seq<Contract>,
    pub body: Block,
    pub span: Span,
}

/// An item of a module.
#[derive(Drop, PartialEq, Eq)]
pub enum Item {
    Bits(BitsItem),
    Struct(StructItem),
    Area(AreaItem),
    Import(Header),
    Proc(ProcItem),
}

/// A module: its name and its items in order.
#[derive(Drop, PartialEq, Eq)]
pub struct Module {
    pub name: Name,
    pub items: Seq<Item>,
    pub span: Span,
}

impl BitField {
    /// A field that equals this one.
    pub fn copy(&self, alloc: Global) -> Result<BitField, Memory>
        ensures { IfOk result (λ t. t ≡ self.now) }
    {
        Ok(BitField {
            name: self.name.copy(alloc)?,
            width: self.width,
            truth: self.truth,
            span: self.span,
        })
    }
}

impl BitsItem {
    /// An item that equals this one.
    pub fn copy(&self, alloc: Global) -> Result<BitsItem, Memory>
        ensures { IfOk result (λ t. t ≡ self.now) }
    {
        Ok(BitsItem {
            name: self.name.copy(alloc)?,
            word: self.word,
            fields: self.fields.copy(alloc)?,
            span: self.span,
        })
    }
}

impl AreaField {
    /// A field that equals this one.
    pub fn copy(&self, alloc: Global) -> Result<AreaField, Memory>
        ensures { IfOk result (λ t. t ≡ self.now) }
    {
        Ok(AreaField {
            name: self.name.copy(alloc)?,
            area: self.area.copy(alloc)?,
            span: self.span,
        })
    }
}

impl StructItem {
    /// An item that equals this one.
    pub fn copy(&self, alloc: Global) -> Result<StructItem, Memory>
        ensures { IfOk result (λ t. t ≡ self.now) }
    {
        Ok(StructItem {
            name: self.name.copy(alloc)?,
            fields: self.fields.copy(alloc)?,
            span: self.span,
        })
    }
}

impl AreaItem {
    /// An item that equals this one.
    pub fn copy(&self, alloc: Global) -> Result<AreaItem, Memory>
        ensures { IfOk result (λ t. t ≡ self.now) }
    {
        Ok(AreaItem {
            name: self.name.copy(alloc)?,
            constant: self.constant,
            area: self.area.copy(alloc)?,
            init: Copied::copied(&self.init, alloc)?,
            span: self.span,
        })
    }
}

impl Param {
    /// A parameter that equals this one.
    pub fn copy(&self, alloc: Global) -> Result<Param, Memory>
        ensures { IfOk result (λ t. t ≡ self.now) }
    {
        Ok(Param {
            name: self.name.copy(alloc)?,
            ty: self.ty.copy(alloc)?,
            span: self.span,
        })
    }
}

impl Header {
    /// A header that equals this one.
    pub fn copy(&self, alloc: Global) -> Result<Header, Memory>
        ensures { IfOk result (λ t. t ≡ self.now) }
    {
        Ok(Header {
            name: self.name.copy(alloc)?,
            params: self.params.copy(alloc)?,
            result: Copied::copied(&self.result, alloc)?,
            span: self.span,
        })
    }
}

impl Contract {
    /// A contract that equals this one.
    pub fn copy(&self, alloc: Global) -> Result<Contract, Memory>
        ensures { IfOk result (λ t. t ≡ self.now) }
    {
        Ok(Contract {
            before: self.before,
            cond: self.cond.copy(alloc)?,
            span: self.span,
        })
    }
}

impl ProcItem {
    /// A procedure that equals this one.
    pub fn copy(&self, alloc: Global) -> Result<ProcItem, Memory>
        ensures { IfOk result (λ t. t ≡ self.now) }
    {
        Ok(ProcItem {
            exported: self.exported,
            header: self.header.copy(alloc)?,
            contracts: self.contracts.copy(alloc)?,
            body: self.body.copy(alloc)?,
            span: self.span,
        })
    }
}

impl Item {
    /// An item that equals this one.
    pub fn copy(&self, alloc: Global) -> Result<Item, Memory>
        ensures { IfOk result (λ t. t ≡ self.now) }
    {
        Ok(match self {
            Item::Bits(item) => Item::Bits(item.copy(alloc)?),
            Item::Struct(item) => Item::Struct(item.copy(alloc)?),
            Item::Area(item) => Item::Area(item.copy(alloc)?),
            Item::Import(header) => Item::Import(header.copy(alloc)?),
            Item::Proc(item) => Item::Proc(item.copy(alloc)?),
        })
    }
}

impl Module {
    /// A module that equals this one.
    pub fn copy(&self, alloc: Global) -> Result<Module, Memory>
        ensures { IfOk result (λ t. t ≡ self.now) }
    {
        Ok(Module {
            name: self.name.copy(alloc)?,
            items: self.items.copy(alloc)?,
            span: self.span,
        })
    }
}

impl Copied for BitField {
    fn copied(&self, alloc: Global) -> Result<BitField, Memory> {
        self.copy(alloc)
    }
}

impl Copied for AreaField {
    fn copied(&self, alloc: Global) -> Result<AreaField, Memory> {
        self.copy(alloc)
    }
}

impl Copied for Param {
    fn copied(&self, alloc: Global) -> Result<Param, Memory> {
        self.copy(alloc)
    }
}

impl Copied for Contract {
    fn copied(&self, alloc: Global) -> Result<Contract, Memory> {
        self.copy(alloc)
    }
}

impl Copied for Item {
    fn copied(&self, alloc: Global) -> Result<Item, Memory> {
        self.copy(alloc)
    }
}

impl Copied for Module {
    fn copied(&self, alloc: Global) -> Result<Module, Memory> {
        self.copy(alloc)
    }
}
