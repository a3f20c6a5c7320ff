//! Whether memory ran out in the worker's last turn.

use std::io::Eprint;

/// The first of several turns without memory is told, on standard error.
#[derive(Drop)]
pub(crate) struct Shortage {
    is_told: bool,
}

impl Shortage {
    pub(crate) fn none() -> Shortage {
        Shortage { is_told: false }
    }

    /// A turn had no memory, or had enough.
    pub(crate) fn note<R: Eprint>(&mut self, rt: &R, is_short: bool) {
        if is_short && !self.is_told {
            let _ = eprintln!(rt; "kr_daemon: out of memory: what is left to do is tried again");
        }
        self.is_told = is_short;
    }
}
