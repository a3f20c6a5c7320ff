//! The words and the notes of whole runs over memory.

use kr_base::{MemorySink, MemorySource};
use kr_defs::Text;
use kr_words::{Status, run};
use std::alloc::{AllocError, Global};
use std::process::Abort;
use std::test::Fail;

// A session: Open, Lead, a request that sets a value, its Commit, End.
const THIN: &str =
    "0000001d0100000001000000000000000700002328000000010001000000016331000000150200000005000000000000000000000000000003e800000038080000000900000000000003e8002c0001000000070001610002040102146d696e2e696e73796e632e7265706c69636173000232000000000000000d03000000050000000000000001000000010a";

// How many bytes of it come, and which read, which put of the output and which of the notes is to fail; 0 for none.
#[derive(Clone, Copy, Debug, Drop)]
struct Setup {
    bytes: usize,
    read: u64,
    put: u64,
    note: u64,
}

const WHOLE: Setup = Setup {
    bytes: 140,
    read: 0,
    put: 0,
    note: 0,
};

// How a run ended, and its objects.
#[derive(Drop)]
struct Ran {
    status: Status,
    input: MemorySource,
    output: MemorySink,
    notes: MemorySink,
}

fn texts(alloc: Global, words: &[&str]) -> Result<Vec<Text>, AllocError> {
    let mut texts = Vec::new(alloc);
    for word in words {
        texts.push(Text::from_str(alloc, word)?)?;
    }
    Ok(texts)
}

fn run_words(alloc: Global, words: &[&str], setup: Setup) -> Result<Ran, Fail> {
    let mut bytes = hex::decode(alloc, THIN)?;
    bytes.truncate(setup.bytes);
    run_over(alloc, words, bytes, setup)
}

fn run_over(alloc: Global, words: &[&str], bytes: Vec<u8>, setup: Setup) -> Result<Ran, Fail> {
    let words = texts(alloc, words)?;
    let mut input = MemorySource::new(bytes, vec![in alloc; setup.read]?);
    let mut output = MemorySink::new(alloc, 4096, 100, vec![in alloc; setup.put]?)?;
    let mut notes = MemorySink::new(alloc, 100, 1, vec![in alloc; setup.note]?)?;
    let status = run(alloc, &words, &mut input, &mut output, &mut notes);
    Ok(Ran {
        status,
        input,
        output,
        notes,
    })
}

#[test]
fn other_words(rt: HostRuntime) -> Result<(), Fail> {
    let lists: [&[&str]; 18] = [
        &[],
        &["sessions"],
        &["Session"],
        &["session", "session"],
        &["make"],
        &["make", "01"],
        &["make", "4294967296"],
        &["make", "+1"],
        &["make", ""],
        &["make", "1", "1"],
        &["nodes"],
        &["nodes", "01"],
        &["nodes", "1", "1"],
        &["balance"],
        &["balance", "07"],
        &["balance", "101"],
        &["balance", "+1"],
        &["balance", "1", "1"],
    ];
    for words in lists {
        let ran = run_words(rt.alloc(), words, WHOLE)?;
        assert!(rt; is_usage(&ran), "of {words:?}");
    }
    Ok(())
}

// Nothing is read and nothing is written but the line of the usage.
fn is_usage(ran: &Ran) -> bool {
    ran.status == Status::Usage
        && ran.input.left().len() == 140
        && ran.output.calls() == 0
        && ran.notes.written()
            == b"usage: kr_tool session | fold | dump | make N | nodes N | balance P\n".as_slice()
}

// The status of a session, and its line.
type Told = (Setup, Status, &'static [u8]);

const TOLD: [Told; 5] = [
    (WHOLE, Status::Done, b""),
    (
        Setup { bytes: 0, ..WHOLE },
        Status::Malformed { at: 0 },
        b"malformed at 0\n",
    ),
    (
        Setup {
            bytes: 139,
            ..WHOLE
        },
        Status::Malformed { at: 135 },
        b"malformed at 135\n",
    ),
    (
        Setup { read: 4, ..WHOLE },
        Status::ReadFault,
        b"read fault\n",
    ),
    (
        Setup { put: 2, ..WHOLE },
        Status::WriteFault,
        b"write fault\n",
    ),
];

fn expect_told(rt: &impl Abort, alloc: Global, note: u64) -> Result<(), Fail> {
    for (setup, status, line) in TOLD {
        let ran = run_words(alloc, &["session"], Setup { note, ..setup })?;
        let wanted = if note == 0 { line } else { b"" };
        assert!(rt;
            ran.status == status && ran.notes.written() == wanted,
            "at {setup:?}"
        );
    }
    Ok(())
}

#[test]
fn lines_of_sessions(rt: HostRuntime) -> Result<(), Fail> {
    expect_told(&rt, rt.alloc(), 0)
}

#[test]
fn failing_notes(rt: HostRuntime) -> Result<(), Fail> {
    expect_told(&rt, rt.alloc(), 1)
}

// What 5,000 drawn moves of several controllers come to, by the model's own run of the number.
const MOVED: &[u8] = b"moves 2260\nrefused 2740\nlength 65\ntold 28\n";

// A batch that sets a value, the image that it makes, and the image's text.
const BATCH: &str =
    "0000000000000000000000540000000502235de38000000000000000000000000003e800000000000003e8ffffffffffffffffffffffffffff000000014400000001380104000401146d696e2e696e73796e632e7265706c6963617302320000";

const IMAGE: &str =
    "000000000000000100000000000000010000000000000000000000540000000002b051e11100000000000000000000000000000000000000000000ffffffffffffffffffffffffffff000000014400000001380104000401146d696e2e696e73796e632e7265706c6963617302320000";

const TEXT: &str = "offset 1\nconfig 4 \"\" \"min.insync.replicas\" \"2\"\n";

// It is done, and has written this.
fn has_written(ran: &Ran, bytes: &[u8]) -> bool {
    ran.status == Status::Done && ran.output.written() == bytes
}

#[test]
fn a_log_is_folded_and_its_image_dumped(rt: HostRuntime) -> Result<(), Fail> {
    let alloc = rt.alloc();
    let image = hex::decode(alloc, IMAGE)?;
    let folded = run_over(alloc, &["fold"], hex::decode(alloc, BATCH)?, WHOLE)?;
    assert!(rt; has_written(&folded, image.as_slice()));
    let dumped = run_over(alloc, &["dump"], image, WHOLE)?;
    assert!(rt; has_written(&dumped, TEXT.as_bytes()));
    Ok(())
}

#[test]
fn the_session_of_a_number_twice(rt: HostRuntime) -> Result<(), Fail> {
    let first = run_words(rt.alloc(), &["make", "1"], WHOLE)?;
    let second = run_words(rt.alloc(), &["make", "1"], WHOLE)?;
    assert!(rt; has_written(&first, second.output.written()));
    assert!(rt; has_written(&second, first.output.written()));
    assert!(rt; first.output.written().starts_with(b"events "));
    Ok(())
}

#[test]
fn the_moves_of_a_number(rt: HostRuntime) -> Result<(), Fail> {
    let ran = run_words(rt.alloc(), &["nodes", "1"], WHOLE)?;
    assert_eq!(rt; ran.status, Status::Done);
    assert_eq!(rt; ran.output.written(), MOVED);
    Ok(())
}
