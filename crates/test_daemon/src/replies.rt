//! A sink for replies, each by one put.

use kr_base::{Failed, Sink};

/// Compares each put with the reply that is expected next. Puts fail by their numbers, counted from 1, and then take nothing.
#[derive(Drop)]
pub(crate) struct ReplySink {
    expected: Vec<Vec<u8>>,
    failing: Vec<usize>,
    // How many puts were taken, and how many of these were the reply that was expected.
    puts: usize,
    same: usize,
    faults: u64,
}

impl ReplySink {
    pub(crate) fn new(expected: Vec<Vec<u8>>, failing: Vec<usize>) -> ReplySink {
        ReplySink {
            expected,
            failing,
            puts: 0,
            same: 0,
            faults: 0,
        }
    }

    /// How many puts were the expected replies, and how many there were.
    pub(crate) fn counts(&self) -> (usize, usize) {
        (self.same, self.puts)
    }

    fn is_next(&self, piece: &[u8]) -> bool {
        match self.expected.get(self.puts) {
            Some(reply) => reply.as_slice() == piece,
            None => false,
        }
    }
}

impl Sink for ReplySink {
    ghost use Rattle.std.specs.Prelude.{None};

    ghost written = { λ _. None };

    ghost faults = { λ s. s.faults };

    fn put(&mut self, piece: &[u8]) -> Result<(), Failed> {
        let number = self.puts.saturating_add(1);
        if self.failing.contains(&number) {
            self.faults = self.faults.saturating_add(1);
            return Err(Failed);
        }
        if self.is_next(piece) {
            self.same = self.same.saturating_add(1);
        }
        self.puts = number;
        Ok(())
    }

    fn faults(&self) -> u64 {
        self.faults
    }
}
