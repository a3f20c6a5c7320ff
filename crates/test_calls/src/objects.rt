//! Each call once with memory to spare, and calls that fail by the lists.

ghost use Rattle.std.specs.Prelude.{◌≡◌, ◌<◌};

use kr_base::{
    Failed, MemorySink, MemorySource, NoMemory, ReadSource, Sink, Source, Steps, WriteSink,
};
use std::alloc::Global;
use std::marker::Brand;
use std::sync::ledger::{Blank, Ledger};

// What each read of two bytes gives, what then stands in the piece, and what is left: the second read fails.
type Read = (Result<usize, Failed>, [u8; 2], &'static [u8]);

const READS: [Read; 5] = [
    (Ok(2), [1, 2], &[3, 4, 5]),
    (Err(Failed), [1, 2], &[3, 4, 5]),
    (Ok(2), [3, 4], &[5]),
    (Ok(1), [5, 4], &[]),
    (Ok(0), [5, 4], &[]),
];

#[test]
fn a_memory_source_fails_by_its_list(rt: HostRuntime) -> Result<(), NoMemory> {
    let alloc = rt.alloc();
    let mut source = MemorySource::new(vec![in alloc; 1, 2, 3, 4, 5]?, vec![in alloc; 2]?);
    let mut piece = [0; 2];
    for (count, bytes, left) in &READS {
        assert!(rt; source.read(&mut piece) == *count);
        assert!(rt; piece == *bytes && source.left() == *left);
    }
    assert!(rt; source.calls() == 5 && source.faults() == 1);
    Ok(())
}

// What is put, and whether it is taken: the second put fails, and there is room for five bytes and for four puts.
const PUTS: [(&[u8], bool); 5] = [
    (&[1, 2, 3], true),
    (&[4], false),
    (&[4, 5, 6], false),
    (&[4, 5], true),
    (&[], false),
];

#[test]
fn a_memory_sink_fails_by_its_list_and_its_room(rt: HostRuntime) -> Result<(), NoMemory> {
    let alloc = rt.alloc();
    let mut sink = MemorySink::new(alloc, 5, 4, vec![in alloc; 2]?)?;
    for (piece, is_taken) in &PUTS {
        assert!(rt; sink.put(piece).is_ok() == *is_taken);
    }
    assert!(rt; sink.written() == [1, 2, 3, 4, 5].as_slice());
    assert!(rt; sink.calls() == 5 && sink.faults() == 3);
    Ok(())
}

// A reader of three bytes gives them all, and then none.
fn is_read() -> bool {
    let bytes = [7, 8, 9];
    let mut source = ReadSource::new(&bytes[..]);
    let mut piece = [0; 4];
    source.read(&mut piece) == Ok(3)
        && piece == [7, 8, 9, 0]
        && source.read(&mut piece) == Ok(0)
        && source.faults() == 0
}

// A writer with room for four bytes takes three, and not two more.
fn is_put() -> bool {
    let mut room = [0; 4];
    let mut sink = WriteSink::new(&mut room[..]);
    sink.put(&[1, 2, 3]) == Ok(()) && sink.put(&[4, 5]) == Err(Failed) && sink.faults() == 1
}

#[test]
fn readers_and_writers_of_std_serve(rt: HostRuntime) {
    assert!(rt; is_read());
    assert!(rt; is_put());
}

fn count_two<L: Ledger>(blank: Blank)
    requires name { blank.name ≡ L.name }
    requires parts { blank.parts ≡ L.parts }
    requires some { 0 < L.parts }
{
    let mut steps: Steps<L> = Steps::new(blank);
    steps.tick();
    steps.tick();
}

#[test]
fn steps_are_counted(rt: HostRuntime) {
    count_two::<Brand>(Blank::new(1));
}
