//! A source whose next bytes are held once they have come.

ghost use Rattle.std.specs.Prelude.{◌≡◌, ◌<◌, ◌≤◌, ◌+◌, [], take, drop, length, vec_len, IfOk, OnErr, OnOk};
ghost use Rattle.std.specs.Io.{ReadsAtMost};
ghost use Rattle.std.specs.Io.KnownBytes.{Consumes, Keeps, ReadConsumes, prepend_known};
ghost use Rattle.kr_base.specs.Causes.{HasCause, raised};
ghost use Rattle.kr_flow.specs.Moves.{Moves};

use kr_base::{Failed, NoMemory, Source, copy_front};
use std::alloc::Global;

// How many bytes are asked for at once, at least and at most.
const LEAST_PIECE: usize = 4_096;

const MOST_PIECE: usize = 65_536;

// So much room is kept where nothing is held.
const MOST_KEPT: usize = 1_048_576;

/// A source over another one, that can take bytes before they are read. Room is taken as bytes come: whoever promises many and
/// sends few has few held.
#[derive(Drop)]
pub struct HeldSource<S: Source> {
    alloc: Global,
    inner: S,
    // What was taken.
    held: Vec<u8>,
    // How much of that was read.
    at: usize,
    // The inner source's last read failed, and nobody was told so yet.
    has_failed: bool,
    // The last read found nothing.
    at_end: bool,
    // How many reads failed; the count stands still at the greatest u64.
    faults: u64,
    ghost within: { at ≤ vec_len held },
}

impl<S: Source> HeldSource<S> {
    /// A source that holds nothing.
    pub fn new(alloc: Global, inner: S) -> HeldSource<S>
        ensures left { ⟦<HeldSource<S> as Source>⟧.left result ≡ prepend_known [] (S.left inner) }
        ensures faults { ⟦<HeldSource<S> as Source>⟧.faults result ≡ 0 }
    {
        HeldSource {
            alloc,
            inner,
            held: Vec::new(alloc),
            at: 0,
            has_failed: false,
            at_end: false,
            faults: 0,
        }
    }

    /// What is held and wasn't read.
    pub fn held(&self) -> &[u8]
        ensures { result.now ≡ drop self.now.at self.now.held.items }
    {
        &self.held.as_slice()[self.at..]
    }

    /// The last read found nothing.
    pub fn is_at_end(&self) -> bool {
        self.at_end
    }

    /// Takes bytes until so many are held, or no more come. What is left to be read stays the same.
    #[tactic(auto, using(crate::proofs::Holding::keeps_refl, crate::proofs::Holding::keeps_trans))]
    pub fn hold(&mut self, count: usize) -> Result<(), NoMemory>
        ensures left { Keeps (⟦<HeldSource<S> as Source>⟧.left self.old)
            (⟦<HeldSource<S> as Source>⟧.left self.new) }
        ensures faults { ⟦<HeldSource<S> as Source>⟧.faults self.new
            ≡ ⟦<HeldSource<S> as Source>⟧.faults self.old }
    {
        for _ in 0..u64::MAX {
            let held = self.held().len();
            if count <= held || self.has_failed {
                return Ok(());
            }
            if !self.hold_more(count - held)? {
                return Ok(());
            }
        }
        Ok(())
    }

    // Takes one more piece; it answers whether one came.
    #[tactic(auto, using(crate::proofs::Holding::moved))]
    fn hold_more(&mut self, lack: usize) -> Result<bool, NoMemory>
        ensures left { Keeps (⟦<HeldSource<S> as Source>⟧.left self.old)
            (⟦<HeldSource<S> as Source>⟧.left self.new) }
        ensures faults { ⟦<HeldSource<S> as Source>⟧.faults self.new
            ≡ ⟦<HeldSource<S> as Source>⟧.faults self.old }
    {
        self.forget();
        let most = lack.max(LEAST_PIECE).min(MOST_PIECE);
        match take_behind(&mut self.inner, &mut self.held, most)? {
            Ok(count) => Ok(count > 0),
            Err(Failed) => {
                self.has_failed = true;
                Ok(false)
            }
        }
    }

    // Forgets what was read.
    fn forget(&mut self)
        ensures left { ⟦<HeldSource<S> as Source>⟧.left self.new
            ≡ ⟦<HeldSource<S> as Source>⟧.left self.old }
        ensures faults { ⟦<HeldSource<S> as Source>⟧.faults self.new
            ≡ ⟦<HeldSource<S> as Source>⟧.faults self.old }
    {
        forget_front(self.alloc, &mut self.held, self.at);
        self.at = 0;
    }
}

// What follows so many bytes. Where nothing does, and much room is kept, that is given back.
fn forget_front(alloc: Global, held: &mut Vec<u8>, at: usize)
    requires { at ≤ vec_len held.old }
    ensures { held.new.items ≡ drop at held.old.items }
{
    if at == held.len() && held.capacity() > MOST_KEPT {
        *held = Vec::new(alloc);
        return;
    }
    let left = held.len() - at;
    held.rotate_left(at);
    held.truncate(left);
}

// Reads at most so many bytes to the end of those that are held.
#[tactic(auto, using(crate::proofs::Holding::none_moved))]
fn take_behind<S: Source>(
    source: &mut S,
    held: &mut Vec<u8>,
    most: usize,
) -> Result<Result<usize, Failed>, NoMemory>
    ensures { Moves (S.left source.old) (S.left source.new) held.old.items held.new.items }
{
    let len = held.len();
    grow(held, most)?;
    Ok(read_grown(source, held, len))
}

// So many zeros more, behind those that are held.
#[tactic(auto, using(crate::proofs::Holding::grown))]
fn grow(held: &mut Vec<u8>, most: usize) -> Result<(), NoMemory>
    ensures front { OnOk result (take (vec_len held.old) held.new.items ≡ held.old.items) }
    ensures more { OnOk result (vec_len held.old ≤ vec_len held.new) }
    ensures same { OnErr result (held.new.items ≡ held.old.items) }
{
    let len = held.len().saturating_add(most);
    held.resize(len, 0)?;
    Ok(())
}

// One read, to behind the first `len` bytes; the others are gone.
fn read_grown<S: Source>(source: &mut S, held: &mut Vec<u8>, len: usize) -> Result<usize, Failed>
    requires { len ≤ vec_len held.old }
    ensures { Moves (S.left source.old) (S.left source.new)
        (take len held.old.items) held.new.items }
{
    match read_behind(source, held.as_mut_slice(), len) {
        Ok(count) => {
            held.truncate(len + count);
            Ok(count)
        }
        Err(failed) => {
            held.truncate(len);
            Err(failed)
        }
    }
}

// One read, into what is behind `at`.
fn read_behind<S: Source>(source: &mut S, into: &mut [u8], at: usize) -> Result<usize, Failed>
    requires { at ≤ length into.old }
    ensures before { take at into.new ≡ take at into.old }
    ensures len { length into.new ≡ length into.old }
    ensures bound { IfOk result (λ count. at + count ≤ length into.new) }
    ensures bytes { IfOk result (λ count. Consumes (S.left source.old) (S.left source.new)
        (take count (drop at into.new))) }
    ensures failed { OnErr result (Keeps (S.left source.old) (S.left source.new)) }
{
    let (_, rest) = into.split_at_mut(at);
    source.read(rest)
}

impl<S: Source> Source for HeldSource<S> {
    ghost left = { λ s. prepend_known (drop s.at s.held.items) (S.left s.inner) };

    ghost faults = { λ s. s.faults };

    fn read(&mut self, into: &mut [u8]) -> Result<usize, Failed> {
        if self.at < self.held.len() {
            return Ok(self.read_held(into));
        }
        self.read_on(into)
    }

    fn faults(&self) -> u64 {
        self.faults
    }
}

impl<S: Source> HeldSource<S> {
    // Reads of what is held.
    #[tactic(auto, using(crate::proofs::Holding::read_of_held))]
    fn read_held(&mut self, into: &mut [u8]) -> usize
        requires { self.old.at < vec_len self.old.held }
        ensures bound { result ≤ length into.new }
        ensures bytes { Consumes (⟦<HeldSource<S> as Source>⟧.left self.old)
            (⟦<HeldSource<S> as Source>⟧.left self.new) (take result into.new) }
        ensures some { 0 < length into.new → 0 < result }
        ensures faults { self.new.faults ≡ self.old.faults }
    {
        let count = copy_front(self.held(), into);
        self.at += count;
        self.at_end = false;
        count
    }

    // Reads where nothing is held.
    #[tactic(auto, using(crate::proofs::Holding::keeps_refl, crate::proofs::Holding::nothing_held))]
    fn read_on(&mut self, into: &mut [u8]) -> Result<usize, Failed>
        requires { self.old.at ≡ vec_len self.old.held }
        ensures bound { ReadsAtMost result into.new }
        ensures bytes { ReadConsumes (⟦<HeldSource<S> as Source>⟧.left self.old)
            (⟦<HeldSource<S> as Source>⟧.left self.new) result into.new }
        ensures cause { HasCause self.old.faults self.new.faults result }
    {
        if self.has_failed {
            return Err(self.fail());
        }
        match self.inner.read(into) {
            Ok(count) => {
                self.at_end = count == 0;
                Ok(count)
            }
            Err(Failed) => Err(self.fail()),
        }
    }

    // Counts a fault.
    fn fail(&mut self) -> Failed
        ensures same { (self.new.inner ≡ self.old.inner) × (self.new.held ≡ self.old.held)
            × (self.new.at ≡ self.old.at) }
        ensures later { self.old.faults ≤ self.new.faults }
        ensures raised { self.new.faults ≡ raised self.old.faults }
    {
        self.has_failed = false;
        self.faults = self.faults.saturating_add(1);
        Failed
    }
}
