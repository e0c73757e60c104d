ghost use Rattle.std.specs.Prelude.{◌≡◌, IfOk};

use iv_words::{Box, Copied, IntKind, Memory, Span, Word};
use std::alloc::Global;

/// Where the area of a reference lives: in the module, or in a region that a procedure has a name for.
#[derive(Drop, PartialEq, Eq)]
pub enum RegionText {
    Global,
    Named(Word),
}

impl RegionText {
    /// A region that equals this one.
    pub fn copy(&self, alloc: Global) -> Result<RegionText, Memory>
        ensures { IfOk result (λ t. t ≡ self.now) }
    {
        Ok(match self {
            RegionText::Global => RegionText::Global,
            RegionText::Named(name) => RegionText::Named(name.copy(alloc)?),
        })
    }
}

/// A type as it is written, and where.
#[cycle(text)]
#[derive(PartialEq, Eq)]
pub struct TypeText {
    pub kind: TypeKind,
    pub span: Span,
}

/// The forms of a type: `bool`, a whole number, an index `ix(N)`, bit data by its name, or a reference.
#[cycle(text)]
#[derive(PartialEq, Eq)]
pub enum TypeKind {
    Bool,
    Int(IntKind),
    Ix(u64),
    Bits(Word),
    Ref(RefText),
}

/// A reference to an area of a region; `constant` where it is written with `const`, so that nothing is stored through it.
#[cycle(text)]
#[derive(PartialEq, Eq)]
pub struct RefText {
    pub constant: bool,
    pub region: RegionText,
    pub area: AreaText,
}

/// The type of a memory area as it is written, and where.
#[cycle(text)]
#[derive(PartialEq, Eq)]
pub struct AreaText {
    pub kind: AreaKind,
    pub span: Span,
}

/// The forms of an area: one stored value, an array with its length, or a struct by its name.
#[cycle(text)]
#[derive(PartialEq, Eq)]
pub enum AreaKind {
    Stored(Box<TypeText>),
    Array(u64, Box<AreaText>),
    Struct(Word),
}

impl TypeText {
    /// A type that equals this one.
    #[cycle(copies)]
    pub fn copy(&self, alloc: Global) -> Result<TypeText, Memory>
        ensures { IfOk result (λ t. t ≡ self.now) }
    {
        Ok(TypeText {
            kind: self.kind.copy(alloc)?,
            span: self.span,
        })
    }
}

impl TypeKind {
    /// A form that equals this one.
    #[cycle(copies)]
    pub fn copy(&self, alloc: Global) -> Result<TypeKind, Memory>
        ensures { IfOk result (λ t. t ≡ self.now) }
    {
        Ok(match self {
            TypeKind::Bool => TypeKind::Bool,
            TypeKind::Int(kind) => TypeKind::Int(*kind),
            TypeKind::Ix(length) => TypeKind::Ix(*length),
            TypeKind::Bits(name) => TypeKind::Bits(name.copy(alloc)?),
            TypeKind::Ref(reference) => TypeKind::Ref(reference.copy(alloc)?),
        })
    }
}

impl RefText {
    /// A reference that equals this one.
    #[cycle(copies)]
    pub fn copy(&self, alloc: Global) -> Result<RefText, Memory>
        ensures { IfOk result (λ t. t ≡ self.now) }
    {
        Ok(RefText {
            constant: self.constant,
            region: self.region.copy(alloc)?,
            area: self.area.copy(alloc)?,
        })
    }
}

impl AreaText {
    /// An area that equals this one.
    #[cycle(copies)]
    pub fn copy(&self, alloc: Global) -> Result<AreaText, Memory>
        ensures { IfOk result (λ t. t ≡ self.now) }
    {
        Ok(AreaText {
            kind: self.kind.copy(alloc)?,
            span: self.span,
        })
    }
}

impl AreaKind {
    /// A form that equals this one.
    #[cycle(copies)]
    pub fn copy(&self, alloc: Global) -> Result<AreaKind, Memory>
        ensures { IfOk result (λ t. t ≡ self.now) }
    {
        Ok(match self {
            AreaKind::Stored(ty) => AreaKind::Stored(Box::new(alloc, ty.copy(alloc)?)?),
            AreaKind::Array(length, area) => {
                AreaKind::Array(*length, Box::new(alloc, area.copy(alloc)?)?)
            }
            AreaKind::Struct(name) => AreaKind::Struct(name.copy(alloc)?),
        })
    }
}

impl Copied for TypeText {
    fn copied(&self, alloc: Global) -> Result<TypeText, Memory> {
        self.copy(alloc)
    }
}

impl Copied for AreaText {
    fn copied(&self, alloc: Global) -> Result<AreaText, Memory> {
        self.copy(alloc)
    }
}

// Each tree is dropped by a function of this crate: one that is derived would be proved again in each crate that drops a tree.

impl Drop for TypeText {
    #[cycle(drops)]
    fn drop(self) {
        let TypeText { kind: _, span: _ } = self;
    }
}

impl Drop for TypeKind {
    #[cycle(drops)]
    fn drop(self) {
        match self {
            TypeKind::Bool | TypeKind::Int(_) | TypeKind::Ix(_) => {}
            TypeKind::Bits(_) | TypeKind::Ref(_) => {}
        }
    }
}

impl Drop for RefText {
    #[cycle(drops)]
    fn drop(self) {
        let RefText {
            constant: _,
            region: _,
            area: _,
        } = self;
    }
}

impl Drop for AreaText {
    #[cycle(drops)]
    fn drop(self) {
        let AreaText { kind: _, span: _ } = self;
    }
}

impl Drop for AreaKind {
    #[cycle(drops)]
    fn drop(self) {
        match self {
            AreaKind::Stored(_) | AreaKind::Array(_, _) | AreaKind::Struct(_) => {}
        }
    }
}
