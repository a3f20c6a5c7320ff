//! A client's stream, which tells the watch of its seat what is waited for.

use crate::watch::Watch;
use kr_base::{Failed, Sink, Source};
use kr_flow::{Phase, Progress};
use std::sync::Wait;

/// What a client sends.
#[derive(Drop)]
pub(crate) struct ClientSource<'a, R: Wait + Copy, S: Source> {
    rt: R,
    watch: &'a Watch,
    // Where the bytes end that came so far.
    progress: Progress,
    inner: S,
}

impl<'a, R: Wait + Copy, S: Source> ClientSource<'a, R, S> {
    pub(crate) fn new(rt: R, watch: &'a Watch, inner: S) -> ClientSource<'a, R, S> {
        ClientSource {
            rt,
            watch,
            progress: Progress::new(),
            inner,
        }
    }
}

// What is waited for behind these bytes.
fn phase_behind(progress: &mut Progress, bytes: &[u8]) -> Phase {
    progress.take(bytes);
    if progress.is_whole() {
        Phase::Answer
    } else {
        Phase::Message
    }
}

impl<'a, R: Wait + Copy, S: Source> Source for ClientSource<'a, R, S> {
    ghost left = { λ s. S.left s.inner };

    ghost faults = { λ s. S.faults s.inner };

    fn read(&mut self, into: &mut [u8]) -> Result<usize, Failed> {
        let read = self.inner.read(into);
        if let Ok(count) = read
            && count > 0
            && let Some(bytes) = into.get(..count)
        {
            let phase = phase_behind(&mut self.progress, bytes);
            self.watch.enter(&self.rt, phase);
        }
        read
    }

    fn faults(&self) -> u64 {
        self.inner.faults()
    }
}

/// What a client is sent.
#[derive(Drop)]
pub(crate) struct ClientSink<'a, R: Wait + Copy, K: Sink> {
    rt: R,
    watch: &'a Watch,
    inner: K,
}

impl<'a, R: Wait + Copy, K: Sink> ClientSink<'a, R, K> {
    pub(crate) fn new(rt: R, watch: &'a Watch, inner: K) -> ClientSink<'a, R, K> {
        ClientSink { rt, watch, inner }
    }
}

impl<'a, R: Wait + Copy, K: Sink> Sink for ClientSink<'a, R, K> {
    ghost written = { λ s. K.written s.inner };

    ghost faults = { λ s. K.faults s.inner };

    fn put(&mut self, piece: &[u8]) -> Result<(), Failed> {
        self.watch.enter(&self.rt, Phase::Reply);
        let put = self.inner.put(piece);
        self.watch.enter(&self.rt, Phase::Idle);
        put
    }

    fn faults(&self) -> u64 {
        self.inner.faults()
    }
}
