//! The words `make` and `nodes`.

ghost use Rattle.std.specs.Prelude.{◌≡◌, ◌≤◌, IfOk, IsErrOf, OnErr, OnOk, string_bytes};
ghost use Rattle.kr_base.specs.Causes.{Rose, Still};
ghost use Rattle.kr_words.specs.Making.{AllAnswered, MakesWhole, WritesOneText, make_text, nodes_text};

use kr_base::{NoMemory, Sink};
use kr_drive::drive;
use kr_fold::ToolFault;
use kr_workload::{make, summary_text};
use std::alloc::Global;

// The six lines of the session of this number.
fn make_lines(alloc: Global, seed: u32) -> Result<String, NoMemory>
    ensures text { IfOk result (λ text. string_bytes text ≡ make_text seed) }
    ensures answered { OnOk result (AllAnswered seed) }
{
    let summary = make(alloc, seed, 2000)?;
    Ok(summary_text(alloc, &summary)?)
}

// The four lines of the moves of this number.
fn nodes_lines(alloc: Global, seed: u32) -> Result<String, NoMemory>
    ensures { IfOk result (λ text. string_bytes text ≡ nodes_text seed) }
{
    let summary = drive(alloc, seed, 5000)?;
    Ok(kr_drive::summary_text(alloc, &summary)?)
}

// Writes a text by one put.
fn write_text<K: Sink>(text: &String, output: &mut K) -> Result<(), ToolFault>
    ensures ends { WritesOneText (string_bytes text.now) (K.written output.old)
        (K.written output.new) result }
    ensures write { IsErrOf result ToolFault.WriteFault →
        Rose (K.faults output.old) (K.faults output.new) }
    ensures complete { Still (K.faults output.old) (K.faults output.new) → MakesWhole result }
    ensures read { IsErrOf result ToolFault.ReadFault → ⊥ }
{
    match output.put(text.as_bytes()) {
        Ok(()) => Ok(()),
        Err(_failed) => Err(ToolFault::WriteFault),
    }
}

/// Makes the session of this number, and writes what came of it by one put.
pub(crate) fn write_summary<K: Sink>(
    alloc: Global,
    seed: u32,
    output: &mut K,
) -> Result<(), ToolFault>
    ensures ends { WritesOneText (make_text seed) (K.written output.old)
        (K.written output.new) result }
    ensures write { IsErrOf result ToolFault.WriteFault →
        Rose (K.faults output.old) (K.faults output.new) }
    ensures complete { Still (K.faults output.old) (K.faults output.new) → MakesWhole result }
    ensures read { IsErrOf result ToolFault.ReadFault → ⊥ }
    ensures answered { OnOk result (AllAnswered seed) }
{
    let text = make_lines(alloc, seed)?;
    write_text(&text, output)
}

/// Makes the moves of this number, and writes what came of them by one put.
pub(crate) fn write_nodes<K: Sink>(
    alloc: Global,
    seed: u32,
    output: &mut K,
) -> Result<(), ToolFault>
    ensures ends { WritesOneText (nodes_text seed) (K.written output.old)
        (K.written output.new) result }
    ensures write { IsErrOf result ToolFault.WriteFault →
        Rose (K.faults output.old) (K.faults output.new) }
    ensures complete { Still (K.faults output.old) (K.faults output.new) → MakesWhole result }
    ensures read { IsErrOf result ToolFault.ReadFault → ⊥ }
{
    let text = nodes_lines(alloc, seed)?;
    write_text(&text, output)
}
