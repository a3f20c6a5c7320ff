//! How the daemon ended, and what it tells its operator.

ghost use Rattle.std.specs.Prelude.{◌≡◌};
ghost use Rattle.std.specs.Process.{exit_status};
ghost use Rattle.kr_host.specs.Endings.{number_of};

use std::io::Eprint;
use std::process::{ExitCode, Termination};

/// How the daemon ended. Each has its exit number.
#[derive(Clone, Copy, Debug, Drop, PartialEq, Eq)]
pub enum Ended {
    /// The worker was stopped, or help was asked for.
    Done,
    /// An address can't be used.
    BadAddress,
    /// The command doesn't take the words.
    Usage,
    /// Memory ran out.
    NoMemory,
    /// The readers' copies had no place for a seat.
    NoPlace,
}

impl Ended {
    /// The number with which the process ends.
    pub fn number(&self) -> u8
        ensures { result ≡ number_of self.now }
    {
        match self {
            Ended::Done => 0,
            Ended::BadAddress => 1,
            Ended::Usage => 2,
            Ended::NoMemory => 6,
            Ended::NoPlace => 8,
        }
    }
}

/// A program whose `main` answers how it ended ends with its number.
impl Termination for Ended {
    fn report<R: Eprint>(self, _rt: &R) -> ExitCode
        ensures { exit_status result ≡ number_of self }
    {
        ExitCode::from(self.number())
    }
}

/// Tells the usage, on standard error.
pub fn tell_refused<R: Eprint>(rt: &R) -> Ended
    ensures { result ≡ Ended.Usage }
{
    let _ = eprintln!(rt;
        "usage: kr_daemon --listen ADDR --node N --cluster TEXT --salt N [--link ADDR] [--clients N]"
    );
    Ended::Usage
}

/// Tells that memory ran out, on standard error.
pub fn tell_no_memory<R: Eprint>(rt: &R) -> Ended
    ensures { result ≡ Ended.NoMemory }
{
    let _ = eprintln!(rt; "kr_daemon: out of memory");
    Ended::NoMemory
}

/// Tells that there was no place for the clients' seats, on standard error.
pub(crate) fn tell_no_place<R: Eprint>(rt: &R) -> Ended
    ensures { result ≡ Ended.NoPlace }
{
    let _ = eprintln!(rt; "kr_daemon: no place for the clients' seats");
    Ended::NoPlace
}
