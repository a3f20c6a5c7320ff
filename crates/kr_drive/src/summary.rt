//! What came of the moves.

ghost use Rattle.std.specs.Prelude.{◌≡◌, ◌+◌, ◌<◌, ◌^◌, ◌++◌, IfOk, OnOk, filter, length, string_bytes};
ghost use Rattle.kr_workload.specs.Summary.{number_line};
ghost use Rattle.kr_drive.specs.Driving as driving;
ghost use Rattle.kr_drive.specs.inner.Standing as standing;

use kr_nodes::ToldReply;
use std::alloc::{AllocError, Global};

/// So many moves were accepted and refused, the list has so many items, and so many replies tell of a write that stands.
#[derive(Clone, Copy, Debug, Drop, PartialEq, Eq)]
pub struct NodesSummary {
    /// How many moves were accepted.
    pub moves: u64,
    /// How many were refused.
    pub refused: u64,
    /// How many items the list has.
    pub length: i64,
    /// How many replies tell of a write that stands.
    pub told: u64,
}

// One more, where the reply tells of a write that stands.
fn count_if_stands(count: usize, told: &ToldReply) -> usize
    requires { count + 1 < 2 ^ 64 }
    ensures { result ≡ standing.counted count told.now }
{
    if told.place != -1 { count + 1 } else { count }
}

/// How many replies tell of a write that stands.
pub(crate) fn count_standing(told: &[ToldReply]) -> u64
    ensures { result ≡ length (filter standing.stands told.now) }
{
    let mut count: usize = 0;
    for one in told {
        count = count_if_stands(count, one);
    }
    count as u64
}

// Adds a line of a word and a number.
fn add_line(alloc: Global, text: &mut String, word: &str, number: u64) -> Result<(), AllocError>
    ensures { OnOk result (string_bytes text.new
        ≡ string_bytes text.old ++ number_line word.now number) }
{
    let line = format!(in alloc; "{word} {number}\n")?;
    text.push_str(&line)
}

/// Four lines, each a word and a number.
#[tactic(auto, unfolding(crate::specs::Driving::nodes_lines))]
pub fn summary_text(alloc: Global, summary: &NodesSummary) -> Result<String, AllocError>
    ensures { IfOk result (λ text. string_bytes text ≡ driving.nodes_lines summary.now) }
{
    let mut text = String::new(alloc);
    add_line(alloc, &mut text, "moves", summary.moves)?;
    add_line(alloc, &mut text, "refused", summary.refused)?;
    add_line(alloc, &mut text, "length", summary.length.unsigned_abs())?;
    add_line(alloc, &mut text, "told", summary.told)?;
    Ok(text)
}
