//! How a run of the tool ended.

ghost use Rattle.std.specs.Prelude.{◌≡◌};
ghost use Rattle.std.specs.Process.{exit_status};
ghost use Rattle.kr_process.specs.Statuses.{number_of};

use std::io::Eprint;
use std::process::{ExitCode, Termination};

/// How a run ended. Each has its exit number.
#[derive(Clone, Copy, Debug, Drop, PartialEq, Eq)]
pub enum Status {
    /// The job was done.
    Done,
    /// The words aren't one of the tool's forms.
    Usage,
    /// No frame stands at this byte of the input.
    Malformed { at: u64 },
    /// A read of the input failed.
    ReadFault,
    /// A write of the output failed.
    WriteFault,
    /// Memory ran out.
    NoMemory,
    /// The longest input was taken without its end.
    TooLong,
}

impl Status {
    /// The number with which the process ends.
    pub fn number(&self) -> u8
        ensures { result ≡ number_of self.now }
    {
        match self {
            Status::Done => 0,
            Status::Usage => 2,
            Status::Malformed { .. } => 3,
            Status::ReadFault => 4,
            Status::WriteFault => 5,
            Status::NoMemory => 6,
            Status::TooLong => 7,
        }
    }
}

/// A program whose `main` answers a status ends with its number.
impl Termination for Status {
    fn report<R: Eprint>(self, _rt: &R) -> ExitCode
        ensures { exit_status result ≡ number_of self }
    {
        ExitCode::from(self.number())
    }
}
