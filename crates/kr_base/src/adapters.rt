//! Sources and sinks over the readers and writers of std.

ghost use Rattle.std.specs.Prelude.{◌≡◌, ◌≤◌, OnOk, OnErr};
ghost use Rattle.std.specs.Io.KnownBytes.{Appends, Keeps};
ghost use Rattle.kr_base.specs.Causes.{HasCause, raised};
ghost use Rattle.kr_base.specs.FailedPuts.{AppendsFront};

use crate::answers::Failed;
use crate::outside::{Sink, Source};
use std::io::{Read, Write};

/// A source over a reader. It tells what is left only where the reader does.
#[derive(Drop)]
pub struct ReadSource<R: Read> {
    // What is read.
    inner: R,
    // How many reads failed; the count stands still at the greatest u64.
    faults: u64,
}

impl<R: Read> ReadSource<R> {
    /// A source over the reader, with no fault counted.
    pub fn new(inner: R) -> ReadSource<R>
        ensures left { ⟦<ReadSource<R> as Source>⟧.left result ≡ R.remaining inner }
        ensures faults { ⟦<ReadSource<R> as Source>⟧.faults result ≡ 0 }
    {
        ReadSource { inner, faults: 0 }
    }
}

impl<R: Read> Source for ReadSource<R> {
    ghost left = { λ s. R.remaining s.inner };

    ghost faults = { λ s. s.faults };

    fn read(&mut self, into: &mut [u8]) -> Result<usize, Failed> {
        match self.inner.read(into) {
            Ok(count) => Ok(count),
            Err(_) => {
                self.faults = self.faults.saturating_add(1);
                Err(Failed)
            }
        }
    }

    fn faults(&self) -> u64 {
        self.faults
    }
}

/// A sink over a writer. It tells what was written only where the writer does. A writer that takes nothing of a piece
/// that isn't empty is a fault.
#[derive(Drop)]
pub struct WriteSink<W: Write> {
    // What is written to.
    inner: W,
    // How many puts failed; the count stands still at the greatest u64.
    faults: u64,
}

impl<W: Write> WriteSink<W> {
    /// A sink over the writer, with no fault counted.
    pub fn new(inner: W) -> WriteSink<W>
        ensures written { ⟦<WriteSink<W> as Sink>⟧.written result ≡ W.contents inner }
        ensures faults { ⟦<WriteSink<W> as Sink>⟧.faults result ≡ 0 }
    {
        WriteSink { inner, faults: 0 }
    }

    // The piece, by as many writes as the writer makes of it.
    fn put_all(&mut self, piece: &[u8]) -> Result<(), Failed>
        ensures ok { OnOk result (Appends (W.contents self.old.inner) (W.contents self.new.inner) piece.now) }
        ensures err { OnErr result (AppendsFront (W.contents self.old.inner) (W.contents self.new.inner) piece.now) }
        ensures cause { HasCause self.old.faults self.new.faults result }
    {
        let mut at = 0;
        while at < piece.len() {
            let (_, rest) = piece.split_at(at);
            match self.inner.write(rest) {
                Ok(count) if count > 0 => at += count,
                _ => return Err(self.fault()),
            }
        }
        Ok(())
    }

    fn flush(&mut self) -> Result<(), Failed>
        ensures same { Keeps (W.contents self.old.inner) (W.contents self.new.inner) }
        ensures cause { HasCause self.old.faults self.new.faults result }
    {
        match self.inner.flush() {
            Ok(()) => Ok(()),
            Err(_) => Err(self.fault()),
        }
    }

    // Counts a fault.
    fn fault(&mut self) -> Failed
        ensures later { self.old.faults ≤ self.new.faults }
        ensures raised { self.new.faults ≡ raised self.old.faults }
        ensures same { self.new.inner ≡ self.old.inner }
    {
        self.faults = self.faults.saturating_add(1);
        Failed
    }
}

impl<W: Write> Sink for WriteSink<W> {
    ghost written = { λ s. W.contents s.inner };

    ghost faults = { λ s. s.faults };

    fn put(&mut self, piece: &[u8]) -> Result<(), Failed> {
        self.put_all(piece)?;
        match self.flush() {
            Ok(()) => Ok(()),
            Err(failed) => Err(failed),
        }
    }

    fn faults(&self) -> u64 {
        self.faults
    }
}
