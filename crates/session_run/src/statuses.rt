//! How a call ends.

ghost use Rattle.std.specs.Prelude.{◌≡◌};
ghost use Rattle.session_run.specs.Calls.Statuses.{number_of};

use cc_names::refusals::SessionError;

/// How a call of the program ends.
#[derive(Clone, Copy, Debug, PartialEq, Eq)]
pub enum Status {
    /// Each command was carried out, and each unit of each build is made; each live object is what its record gives.
    Good,
    /// A command was refused, or a unit of a build is not made; a live object is not what its record gives.
    SomeFailed,
    /// The words have none of the forms.
    BadWords,
    /// The source's bytes spell no session: their first line that stands wrong, and why.
    BadSession(SessionError),
    /// The frame of this number, counted from 1, is the first of the disk's journal that spells no row, or whose row does
    /// not fit those before it or is of a deed that is not made yet.
    Damaged(u64),
    /// The source failed.
    ReadFault,
    /// The sink failed.
    WriteFault,
    /// The disk failed.
    DiskFault,
    /// Memory ran out, or the system gave no random numbers.
    NoMemory,
    /// The source gave too many bytes.
    TooLong,
}

impl Status {
    /// The number with which the program ends.
    pub fn code(&self) -> u8
        ensures { result ≡ number_of self.now }
    {
        match self {
            Status::Good => 0,
            Status::SomeFailed => 1,
            Status::BadWords => 2,
            Status::BadSession(_) => 3,
            Status::Damaged(_) => 4,
            Status::ReadFault => 5,
            Status::WriteFault => 6,
            Status::DiskFault => 7,
            Status::NoMemory => 8,
            Status::TooLong => 9,
        }
    }
}
