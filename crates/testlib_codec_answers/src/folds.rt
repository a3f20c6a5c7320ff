//! What a fold and a dump over memory write, in words, or why they don't.

ghost use Rattle.std.specs.Prelude.{◌≡◌, [], Some, IfOk, string_bytes};
ghost use Rattle.testlib_codec_answers.specs.FoldWords as words;
ghost use Rattle.testlib_codec_answers.specs.FoldWords.{TellsDump, TellsFold};

use kr_base::{MemorySink, MemorySource, NoMemory};
use kr_fold::{ToolFault, dump, fold};
use std::alloc::{AllocError, Global};
use testlib_words::RowFault;

/// How many bytes may be written.
pub(crate) const ROOM: usize = 65_536;

/// The image that the batches of a log make, in hex, or why the log isn't folded.
pub fn fold_answer(alloc: Global, bytes: Vec<u8>) -> Result<String, NoMemory>
    ensures { IfOk result (λ text. TellsFold bytes.items (string_bytes text)) }
{
    let mut input = MemorySource::new(bytes, Vec::new(alloc));
    let mut output = MemorySink::new(alloc, ROOM, 1, Vec::new(alloc))?;
    let answer = fold(alloc, &mut input, &mut output);
    Ok(fold_text(alloc, output.written(), answer)?)
}

fn fold_text(
    alloc: Global,
    written: &[u8],
    answer: Result<(), ToolFault>,
) -> Result<String, AllocError>
    ensures { IfOk result (λ text. string_bytes text ≡ words.fold_words written.now answer) }
{
    match answer {
        Ok(()) => ok_text(alloc, written),
        Err(fault) => fault_text(alloc, fault),
    }
}

fn ok_text(alloc: Global, written: &[u8]) -> Result<String, AllocError>
    ensures { IfOk result (λ text. string_bytes text ≡ words.fold_words written.now (Ok tt)) }
{
    let digits = hex::encode(alloc, written)?;
    format!(in alloc; "ok {digits}")
}

/// Why nothing is written.
pub(crate) fn fault_text(alloc: Global, fault: ToolFault) -> Result<String, AllocError>
    ensures { IfOk result (λ text. string_bytes text ≡ words.tool_fault_words fault) }
{
    match fault {
        ToolFault::Malformed { at } => format!(in alloc; "malformed at {at}"),
        ToolFault::ReadFault => String::from_str(alloc, "a read failed"),
        ToolFault::WriteFault => String::from_str(alloc, "a write failed"),
        ToolFault::NoMemory => String::from_str(alloc, "out of memory"),
        ToolFault::TooLong => String::from_str(alloc, "the input is too long"),
    }
}

/// The text of an image in one line, `\n` for each line end, or why the image isn't dumped.
pub fn dump_answer(alloc: Global, bytes: Vec<u8>) -> Result<String, RowFault>
    ensures { IfOk result (λ text. TellsDump bytes.items (string_bytes text)) }
{
    let mut input = MemorySource::new(bytes, Vec::new(alloc));
    let mut output = MemorySink::new(alloc, ROOM, 1, Vec::new(alloc))?;
    let answer = dump(alloc, &mut input, &mut output);
    let text = dump_text(alloc, output.written(), answer)?;
    Ok(text)
}

fn dump_text(
    alloc: Global,
    written: &[u8],
    answer: Result<(), ToolFault>,
) -> Result<String, RowFault>
    ensures { IfOk result (λ text. string_bytes text ≡ words.dump_words written.now answer) }
{
    match answer {
        Ok(()) => text_in_line(alloc, written),
        Err(fault) => Ok(fault_text(alloc, fault)?),
    }
}

// A text is UTF-8.
fn text_in_line(alloc: Global, written: &[u8]) -> Result<String, RowFault>
    ensures { IfOk result (λ text. string_bytes text ≡ words.dump_words written.now (Ok tt)) }
{
    let line = bytes_in_line(alloc, written)?;
    match std::str::from_utf8(line.as_slice()) {
        Ok(line) => Ok(format!(in alloc; "ok {line}")?),
        Err(_) => Err(RowFault::Fields),
    }
}

fn bytes_in_line(alloc: Global, written: &[u8]) -> Result<Vec<u8>, AllocError>
    ensures { IfOk result (λ line. line.items ≡ words.in_one_line written.now) }
{
    let mut line = Vec::new(alloc);
    for byte in written {
        if *byte == b'\n' {
            line.extend_from_slice(b"\\n")?;
        } else {
            line.push(*byte)?;
        }
    }
    Ok(line)
}
