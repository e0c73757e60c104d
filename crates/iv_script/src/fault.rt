use iv_words::Memory;

/// What is wrong with a line of a script.
#[derive(Clone, Copy, Debug, Drop, PartialEq, Eq)]
pub enum ScriptWhy {
    /// A first word that says nothing, or `call` without a name.
    BadWord,
    /// A value that is no number.
    BadNumber,
    /// No export has the name.
    NoSuchName,
    /// Not as many values as the export has parameters.
    BadCount,
    /// A value that is none of its parameter's type.
    OutOfRange,
}

/// A line of a script, counted from 1, and what is wrong with it.
#[derive(Clone, Copy, Debug, Drop, PartialEq, Eq)]
pub struct ScriptFault {
    pub line: u32,
    pub why: ScriptWhy,
}

/// Why a text gave no script.
#[derive(Clone, Copy, Debug, Drop, PartialEq, Eq)]
pub enum ScriptError {
    /// Its first bad line.
    At(ScriptFault),
    /// Want of memory, which says nothing of the text.
    Memory,
}

impl From<Memory> for ScriptError {
    ghost use Rattle.std.specs.Prelude.{◌≡◌};
    ghost use Rattle.iv_script.specs.declared.fault.ScriptError.TheVariants as error;

    ghost from_gives = { λ _ why. why ≡ error.Memory };

    fn from(_memory: Memory) -> ScriptError {
        ScriptError::Memory
    }
}
