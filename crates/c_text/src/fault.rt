/// Why bytes are no C text of the subset: they spell no unit, nest too deep, or break a rule of names or of types.
#[derive(Clone, Copy, Debug, Drop, PartialEq, Eq)]
pub enum CWhy {
    Syntax,
    TooDeep,
    BadName,
    BadType,
}

/// The first fault of a C text: the place of a byte, or the text's length, and why.
#[derive(Clone, Copy, Debug, Drop, PartialEq, Eq)]
pub struct CFault {
    pub at: u32,
    pub why: CWhy,
}
