//! What a session over memory answers, in words: how many bytes are left, what is written, and how it ended.

ghost use Rattle.std.specs.Prelude.{◌≡◌, [], Some, length, IfOk, string_bytes};
ghost use Rattle.std.specs.Fmt.{decimal};
ghost use Rattle.testlib_words.specs.PlainWords.{◌␣◌, hex_words};
ghost use Rattle.testlib_codec_answers.specs.SessionWords as words;
ghost use Rattle.testlib_codec_answers.specs.SessionWords.{TellsSession};

use kr_base::{MemorySink, MemorySource, NoMemory};
use kr_process::Status;
use kr_session_loop::session;
use std::alloc::{AllocError, Global};
use testlib_words::{hex_text, join_by_space};

// How many bytes a session may write, and in how many puts.
const ROOM: usize = 1 << 20;

const PUTS: usize = 10_000;

fn status_text(alloc: Global, status: Status) -> Result<String, AllocError>
    ensures { IfOk result (λ text. string_bytes text ≡ words.status_words status) }
{
    match status {
        Status::Done => String::from_str(alloc, "done"),
        Status::Usage => String::from_str(alloc, "usage"),
        Status::Malformed { at } => format!(in alloc; "malformed at {at}"),
        Status::ReadFault => String::from_str(alloc, "read fault"),
        Status::WriteFault => String::from_str(alloc, "write fault"),
        Status::NoMemory => String::from_str(alloc, "out of memory"),
        Status::TooLong => String::from_str(alloc, "input too long"),
    }
}

fn session_text(
    alloc: Global,
    left: &[u8],
    written: &[u8],
    status: Status,
) -> Result<String, AllocError>
    ensures { IfOk result (λ text. string_bytes text ≡ words.session_words left.now written.now
        status) }
{
    let status = status_text(alloc, status)?;
    let digits = hex_text(alloc, written)?;
    let left = left.len();
    let bytes = format!(in alloc; "{left} {digits}")?;
    join_by_space(alloc, &bytes, &status)
}

/// How the session that begins the bytes ends, and what it writes.
pub fn session_answer(alloc: Global, bytes: Vec<u8>) -> Result<String, NoMemory>
    ensures { IfOk result (λ text. TellsSession bytes.items (string_bytes text)) }
{
    let mut input = MemorySource::new(bytes, Vec::new(alloc));
    let mut output = MemorySink::new(alloc, ROOM, PUTS, Vec::new(alloc))?;
    let status = session(alloc, &mut input, &mut output);
    Ok(session_text(alloc, input.left(), output.written(), status)?)
}
