//! The answers of the top call.

ghost use Rattle.std.specs.Prelude.{◌≡◌};
ghost use Rattle.omci_top.specs.Answers.{status_number};

/// How a run of the program ended.
#[derive(Clone, Copy, Debug, PartialEq, Eq)]
pub enum Status {
    /// The work was done to its end.
    Done,
    /// The words are no command line.
    Usage,
    /// The input has a fault: the number of the line that has it, from 1, and the reason.
    Input { place: u64, reason: u8 },
    /// The source failed.
    ReadFault,
    /// The sink failed.
    WriteFault,
    /// The disk failed.
    DiskFault,
    /// The link failed.
    LinkFault,
    /// The disk has no image slots, or no image in the committed one.
    NoUnit,
    /// The input has more than 16,777,216 bytes.
    TooLong,
    /// There was not enough memory.
    NoMemory,
    /// An image is empty, or has more than 1,048,576 bytes.
    TooLarge,
}

impl Status {
    /// The exit status of the program.
    pub fn number(self) -> u8
        ensures value { result ≡ status_number self }
    {
        match self {
            Status::Done => 0,
            Status::Usage => 1,
            Status::Input { .. } => 2,
            Status::ReadFault => 3,
            Status::WriteFault => 4,
            Status::DiskFault => 5,
            Status::LinkFault => 6,
            Status::NoUnit => 7,
            Status::TooLong => 8,
            Status::NoMemory => 9,
            Status::TooLarge => 10,
        }
    }
}
