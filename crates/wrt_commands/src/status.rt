//! How a run ends.

ghost use Rattle.std.specs.Prelude.{◌≡◌};
ghost use Rattle.wrt_commands.specs.Statuses.{code_of};

/// How a run ends.
#[derive(Clone, Copy, Debug, PartialEq, Eq)]
pub enum Status {
    /// The report was written whole.
    Done,
    /// The text, the diagram, its colours, framings or order, or a step is refused.
    Input,
    /// The words or the parameters are refused.
    Words,
    /// A read failed.
    ReadFault,
    /// A write of the report failed.
    WriteFault,
    /// A stated limit is passed.
    Limit,
    /// A quantity has no inverse.
    NoInverse,
    /// Memory ran out.
    Memory,
}

impl Status {
    /// The exit status of the program, 0 to 7 in the order of the variants.
    pub fn code(&self) -> u8
        ensures { result ≡ code_of self.now }
    {
        match self {
            Status::Done => 0,
            Status::Input => 1,
            Status::Words => 2,
            Status::ReadFault => 3,
            Status::WriteFault => 4,
            Status::Limit => 5,
            Status::NoInverse => 6,
            Status::Memory => 7,
        }
    }
}
