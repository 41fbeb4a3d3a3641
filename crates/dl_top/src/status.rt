//! How the program ends.

ghost use Rattle.std.specs.Prelude.{◌≡◌};
ghost use Rattle.dl_top.specs.Statuses.{code_of};

/// How a command ended. Its number is the exit status of the program.
#[derive(Clone, Copy, Debug, Drop, PartialEq, Eq)]
pub enum Status {
    /// 0: the whole text of the command was written.
    Done,
    /// 1: the text has a fault; the line of the first one was to be written.
    Refused,
    /// 2: the words name no command; nothing was read.
    Usage,
    /// 3: the source failed.
    ReadFault,
    /// 4: the sink failed while the command's text was written.
    WriteFault,
    /// 5: memory was wanting.
    NoMemory,
    /// 6: the report of a run was written whole, and some program did not end.
    Unended,
    /// 7: the source gave more than 1,048,576 bytes.
    TooLong,
}

impl Status {
    /// The exit status.
    pub fn code(self) -> u8
        ensures { result ≡ code_of self }
    {
        match self {
            Status::Done => 0,
            Status::Refused => 1,
            Status::Usage => 2,
            Status::ReadFault => 3,
            Status::WriteFault => 4,
            Status::NoMemory => 5,
            Status::Unended => 6,
            Status::TooLong => 7,
        }
    }
}
