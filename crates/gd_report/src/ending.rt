// How a run ends, and the status of each ending.
ghost use Rattle.std.specs.Prelude.{◌≡◌};
ghost use Rattle.gd_report.specs.Said.{status_of};

use gd_base::Status;

/// How a run ends. `docs/FORMATS.md` says where each comes, and what the files hold then.
#[derive(Clone, Copy, Debug, PartialEq, Eq)]
pub enum Ending {
    /// Every verdict is an accept, or the certificate is valid.
    Done,
    /// Some verdict is a reject.
    Rejected,
    /// Some verdict is open, and none is a reject.
    Open,
    /// An input file was refused.
    Refused,
    /// The words are of no command.
    WrongWords,
    /// A file could not be read.
    Unread,
    /// A file could not be stored, or a text not be put.
    Unwritten,
    /// Memory ran out.
    OutOfMemory,
    /// A certificate isn't right.
    Invalid,
}

impl Ending {
    /// The status that the program ends with. It never changes.
    pub fn status(self) -> Status
        ensures { result.0 ≡ status_of self }
    {
        match self {
            Ending::Done => Status(0),
            Ending::Rejected => Status(1),
            Ending::Open => Status(2),
            Ending::Refused => Status(3),
            Ending::WrongWords => Status(4),
            Ending::Unread => Status(5),
            Ending::Unwritten => Status(6),
            Ending::OutOfMemory => Status(7),
            Ending::Invalid => Status(8),
        }
    }
}
