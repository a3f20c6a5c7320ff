//! What a row asks, read from its fields, and the answer.

use crate::kinds::Kind;
use crate::walks::{moves_row, nodes_row};
use std::alloc::Global;
use testlib_codec_answers::{
    balance_row, batch_row, dump_row, fold_row, image_row, message_row, primitive_row, record_row,
    session_row,
};
use testlib_rule_rows::{Question, apply_row, change_row, heartbeats_row, place_row};
use testlib_words::{Fields, RowFault};

/// The answer to what a row of this kind asks.
pub(crate) fn answer(alloc: Global, kind: Kind, asked: &str) -> Result<String, RowFault> {
    let mut fields = Fields::new(asked);
    let text = answer_to(alloc, kind, &mut fields)?;
    fields.end()?;
    Ok(text)
}

fn answer_to(alloc: Global, kind: Kind, fields: &mut Fields) -> Result<String, RowFault> {
    match kind {
        Kind::Primitives => primitive_row(alloc, fields),
        Kind::Records => record_row(alloc, fields),
        Kind::Batches => batch_row(alloc, fields),
        Kind::Merge => change_row(alloc, Question::Merge, fields),
        Kind::Target => change_row(alloc, Question::Target, fields),
        Kind::Completes => change_row(alloc, Question::Completes, fields),
        Kind::Eligible => change_row(alloc, Question::Eligible, fields),
        Kind::Elect => change_row(alloc, Question::Elect, fields),
        Kind::Build => change_row(alloc, Question::Build, fields),
        Kind::Place => place_row(alloc, fields),
        Kind::Sessions => session_row(alloc, fields),
        Kind::Messages => message_row(alloc, fields),
        Kind::Heartbeats => heartbeats_row(alloc, fields),
        Kind::Apply => apply_row(alloc, fields),
        Kind::Images => image_row(alloc, fields),
        Kind::Fold => fold_row(alloc, fields),
        Kind::Dump => dump_row(alloc, fields),
        Kind::Balance => balance_row(alloc, fields),
        Kind::Moves => moves_row(alloc, fields),
        Kind::Nodes => nodes_row(alloc, fields),
    }
}
