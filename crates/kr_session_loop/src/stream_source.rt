//! A source of one of the tool's streams, in few reads.

ghost use Rattle.std.specs.Prelude.{◌≡◌, ◌<◌, ◌≤◌, [], length, IfOk, OnOk};
ghost use Rattle.std.specs.Io.KnownBytes.{IsAtEnd, Keeps, prepend_known};
ghost use Rattle.kr_base.specs.Causes.{HasCause};
ghost use Rattle.kr_session_loop.specs.declared.ahead.TheConstants.{ROOM};

use crate::ahead::{Ahead, ROOM};
use kr_base::{Failed, NoMemory, Source};
use std::alloc::Global;

/// A source of a stream over another one. Of a session's frames it asks a body together with the size and the kind of the
/// next frame, and nothing behind the End frame; of other streams nothing before it is asked for.
#[derive(Drop)]
pub struct StreamSource<S: Source> {
    inner: S,
    // The stream is frames.
    frames: bool,
    // What was read before it was asked for.
    ahead: Ahead,
}

impl<S: Source + Drop> StreamSource<S> {
    /// A source of a session's frames, or of another stream. Nothing is read yet.
    pub fn new(alloc: Global, inner: S, frames: bool) -> Result<StreamSource<S>, NoMemory>
        ensures left { IfOk result
            (λ s. ⟦<StreamSource<S> as Source>⟧.left s ≡ prepend_known [] (S.left inner)) }
        ensures faults { IfOk result
            (λ s. ⟦<StreamSource<S> as Source>⟧.faults s ≡ S.faults inner) }
    {
        let ahead = Ahead::new(alloc)?;
        Ok(StreamSource {
            inner,
            frames,
            ahead,
        })
    }
}

// How many bytes of a session stand for certain behind those that are asked for. Five or more are asked of a body, and
// behind that stand a size and a kind; behind a size stands a kind.
fn certain_behind(asked: usize) -> usize
    ensures { result ≤ 5 }
{
    match asked {
        0 | 1 => 0,
        2..=4 => 1,
        _ => 5,
    }
}

impl<S: Source> StreamSource<S> {
    // Where nothing waits, reads what is asked for, and what stands behind it for certain.
    fn read_ahead(&mut self, asked: usize) -> Result<(), Failed>
        requires { asked < ROOM }
        ensures bytes { Keeps (prepend_known self.old.ahead (S.left self.old.inner))
            (prepend_known self.new.ahead (S.left self.new.inner)) }
        ensures end { OnOk result
            (0 < asked → length self.new.ahead ≡ 0 → IsAtEnd (S.left self.new.inner)) }
        ensures cause { HasCause (S.faults self.old.inner) (S.faults self.new.inner) result }
    {
        if self.ahead.is_empty() {
            let behind = if self.frames {
                certain_behind(asked)
            } else {
                0
            };
            self.ahead.fill(&mut self.inner, asked + behind)?;
        }
        Ok(())
    }
}

impl<S: Source> Source for StreamSource<S> {
    ghost left = { λ s. prepend_known s.ahead (S.left s.inner) };

    ghost faults = { λ s. S.faults s.inner };

    fn read(&mut self, into: &mut [u8]) -> Result<usize, Failed> {
        if into.len() >= ROOM && self.ahead.is_empty() {
            return self.inner.read(into);
        }
        self.read_ahead(into.len().min(ROOM - 1))?;
        Ok(self.ahead.hand(into))
    }

    fn faults(&self) -> u64 {
        self.inner.faults()
    }
}
