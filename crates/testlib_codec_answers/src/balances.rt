//! What a balance over memory writes, in words, or why it doesn't.

ghost use Rattle.std.specs.Prelude.{◌≡◌, IfOk, string_bytes};
ghost use Rattle.testlib_codec_answers.specs.BalanceWords as words;
ghost use Rattle.testlib_codec_answers.specs.BalanceWords.{TellsBalance};

use crate::folds::{ROOM, fault_text};
use kr_base::{MemorySink, MemorySource, NoMemory};
use kr_fold::ToolFault;
use kr_leaders::balance;
use std::alloc::{AllocError, Global};

/// The balanced image in hex, or that it is the same, or why the image isn't balanced.
pub fn balance_answer(alloc: Global, percent: u8, bytes: Vec<u8>) -> Result<String, NoMemory>
    ensures { IfOk result (λ text. TellsBalance percent bytes.items (string_bytes text)) }
{
    let mut copy = Vec::new(alloc);
    copy.extend_from_slice(bytes.as_slice())?;
    let mut input = MemorySource::new(copy, Vec::new(alloc));
    let mut output = MemorySink::new(alloc, ROOM, 1, Vec::new(alloc))?;
    let answer = balance(alloc, percent, &mut input, &mut output);
    Ok(balance_text(alloc, bytes.as_slice(), output.written(), answer)?)
}

fn balance_text(
    alloc: Global,
    bytes: &[u8],
    written: &[u8],
    answer: Result<(), ToolFault>,
) -> Result<String, AllocError>
    ensures { IfOk result
        (λ text. string_bytes text ≡ words.balance_words bytes.now written.now answer) }
{
    match answer {
        Ok(()) => image_text(alloc, bytes, written),
        Err(fault) => fault_text(alloc, fault),
    }
}

fn image_text(alloc: Global, bytes: &[u8], written: &[u8]) -> Result<String, AllocError>
    ensures { IfOk result
        (λ text. string_bytes text ≡ words.balance_words bytes.now written.now (Ok tt)) }
{
    if bytes == written {
        return String::from_str(alloc, "same");
    }
    let digits = hex::encode(alloc, written)?;
    format!(in alloc; "ok {digits}")
}
