ghost use Rattle.std.specs.Prelude.{◌≡◌};
ghost use Rattle.ivoryc.specs.Statuses.{number_of};

/// How a call of the program ends; its exit status is the number.
#[derive(Clone, Copy, Debug, Drop, PartialEq, Eq)]
pub enum Status {
    /// 0: the command is done.
    Done,
    /// 1: the module or the C text has a fault.
    Refused,
    /// 2: the words are no command.
    Words,
    /// 3: the store could not read a file.
    ReadFault,
    /// 4: the output or the error output could not be written.
    WriteFault,
    /// 5: memory is wanting.
    Memory,
    /// 6: a file is longer than its limit.
    TooLarge,
    /// 7: the script does not read or does not fit.
    Script,
    /// 8: the input is not built yet.
    NotBuilt,
}

impl Status {
    /// The exit status of the process.
    pub fn number(self) -> u8
        ensures { result ≡ number_of self }
    {
        match self {
            Status::Done => 0,
            Status::Refused => 1,
            Status::Words => 2,
            Status::ReadFault => 3,
            Status::WriteFault => 4,
            Status::Memory => 5,
            Status::TooLarge => 6,
            Status::Script => 7,
            Status::NotBuilt => 8,
        }
    }
}
