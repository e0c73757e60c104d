use iv_words::Memory;

/// Why a scalar of an object is not read or written.
#[derive(Clone, Copy, Debug, Drop, PartialEq, Eq)]
pub enum Fault {
    Dead,
    BadAccess,
    Indeterminate,
    ConstWrite,
}

/// Why the memory does not answer: a fault, or want of memory.
#[derive(Clone, Copy, Debug, Drop, PartialEq, Eq)]
pub enum Refusal {
    Fault(Fault),
    Memory,
}
