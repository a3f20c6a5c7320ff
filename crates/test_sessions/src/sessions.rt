//! One session over objects that fail, from a source that gives one byte a read, and from one that has nothing behind its end.

ghost use Rattle.std.specs.Prelude.{Some};

use kr_base::{Failed, MemorySink, MemorySource, Source};
use kr_process::Status;
use kr_session_loop::{StreamSource, session};
use std::alloc::Global;
use std::test::Fail;

// Open, Lead, a request that sets a value, its Commit, End; and the frames that they give.
const THIN: &str =
    "0000001d0100000001000000000000000700002328000000010001000000016331000000150200000005000000000000000000000000000003e800000038080000000900000000000003e8002c0001000000070001610002040102146d696e2e696e73796e632e7265706c69636173000232000000000000000d03000000050000000000000001000000010a";

const GIVEN: &str =
    "00000061810000000000000000000000540000000502235de38000000000000000000000000003e800000000000003e8ffffffffffffffffffffffffffff000000014400000001380104000401146d696e2e696e73796e632e7265706c69636173023200000000001682000000090000000700000000000200000004010000";

// A source that gives at most one byte at a read.
#[derive(Drop)]
struct Dripping<S: Source> {
    inner: S,
}

impl<S: Source> Source for Dripping<S> {
    ghost left = { λ s. S.left s.inner };

    ghost faults = { λ s. S.faults s.inner };

    fn read(&mut self, into: &mut [u8]) -> Result<usize, Failed> {
        let most = into.len().min(1);
        let (front, _) = into.split_at_mut(most);
        self.inner.read(front)
    }

    fn faults(&self) -> u64 {
        self.inner.faults()
    }
}

#[test]
fn byte_by_byte(rt: HostRuntime) -> Result<(), Fail> {
    let alloc = rt.alloc();
    let given = hex::decode(alloc, GIVEN)?;
    let mut input = Dripping {
        inner: MemorySource::new(hex::decode(alloc, THIN)?, Vec::new(alloc)),
    };
    let mut output = MemorySink::new(alloc, given.len(), 2, Vec::new(alloc))?;
    assert!(rt; session(alloc, &mut input, &mut output) == Status::Done);
    assert!(rt; output.written() == given.as_slice());
    assert!(rt; input.inner.left().is_empty() && input.inner.calls() == 140);
    Ok(())
}

// A source that fails where it is asked for more bytes than are left.
#[derive(Drop)]
struct Exact {
    inner: MemorySource,
    faults: u64,
}

impl Source for Exact {
    ghost left = { λ s. Some s.inner.left };

    ghost faults = { λ s. s.faults };

    fn read(&mut self, into: &mut [u8]) -> Result<usize, Failed> {
        if into.len() <= self.inner.left().len() {
            if let Ok(count) = self.inner.read(into) {
                return Ok(count);
            }
        }
        self.faults = self.faults.saturating_add(1);
        Err(Failed)
    }

    fn faults(&self) -> u64 {
        self.faults
    }
}

#[test]
fn nothing_behind_end_is_asked_for(rt: HostRuntime) -> Result<(), Fail> {
    let alloc = rt.alloc();
    for frames in [true, false] {
        let source = Exact {
            inner: MemorySource::new(hex::decode(alloc, THIN)?, Vec::new(alloc)),
            faults: 0,
        };
        let mut input = StreamSource::new(alloc, source, frames)?;
        let mut output = MemorySink::new(alloc, 4096, 2, Vec::new(alloc))?;
        assert!(rt; session(alloc, &mut input, &mut output) == Status::Done);
    }
    Ok(())
}

// How the session ended with this read and this put failing, 0 for none.
#[derive(Drop)]
struct Ran {
    status: Status,
    reads: u64,
    written: Vec<u8>,
}

fn run_failing(alloc: Global, read: u64, put: u64) -> Result<Ran, Fail> {
    let mut input = MemorySource::new(hex::decode(alloc, THIN)?, vec![in alloc; read]?);
    let mut output = MemorySink::new(alloc, 4096, 100, vec![in alloc; put]?)?;
    let status = session(alloc, &mut input, &mut output);
    Ok(Ran {
        status,
        reads: input.calls(),
        written: output.written().to_vec(alloc)?,
    })
}

// It ended so, and what was written is a front of what is given.
fn is_front(ran: &Ran, status: Status, given: &[u8]) -> bool {
    ran.status == status && given.starts_with(&ran.written)
}

#[test]
fn failing_reads(rt: HostRuntime) -> Result<(), Fail> {
    let given = hex::decode(rt.alloc(), GIVEN)?;
    let reads = run_failing(rt.alloc(), 0, 0)?.reads;
    assert!(rt; reads > 4);
    for read in 1..=reads {
        let ran = run_failing(rt.alloc(), read, 0)?;
        assert!(rt; is_front(&ran, Status::ReadFault, &given), "at read {read}");
    }
    Ok(())
}

#[test]
fn failing_puts(rt: HostRuntime) -> Result<(), Fail> {
    let given = hex::decode(rt.alloc(), GIVEN)?;
    for (put, written) in [(1, 0), (2, 101)] {
        let ran = run_failing(rt.alloc(), 0, put)?;
        assert!(rt; is_front(&ran, Status::WriteFault, &given), "at put {put}");
        assert!(rt; ran.written.len() == written, "at put {put}");
    }
    Ok(())
}
