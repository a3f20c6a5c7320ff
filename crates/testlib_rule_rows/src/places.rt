//! Rows on placement.

use kr_defs::Text;
use kr_place::Racked;
use std::alloc::Global;
use testlib_rule_answers::place_answer;
use testlib_words::{Fields, RowFault, number_of};

/// The brokers with their racks, the start, the index and the factor: the brokers that are chosen.
pub fn place_row(alloc: Global, fields: &mut Fields) -> Result<String, RowFault> {
    let mut brokers = Racked::new(alloc);
    push_brokers(alloc, fields.word()?, &mut brokers)?;
    let start = fields.number()?;
    let index = fields.number()?;
    let factor = fields.number()?;
    if start < 0 || index < 0 || factor < 1 {
        return Err(RowFault::Fields);
    }
    Ok(place_answer(alloc, &brokers, start, index, factor)?)
}

// Brokers with commas between them, each with its rack behind a colon if it has one; `-` for none.
fn push_brokers(alloc: Global, word: &str, brokers: &mut Racked) -> Result<(), RowFault> {
    if word == "-" {
        return Ok(());
    }
    for part in word.split(',') {
        push_broker(alloc, part, brokers)?;
    }
    Ok(())
}

fn push_broker(alloc: Global, part: &str, brokers: &mut Racked) -> Result<(), RowFault> {
    match part.split_once(':') {
        Some((id, rack)) => {
            let rack = Text::from_str(alloc, rack)?;
            push_racked(number_of(id)?, Some(rack), brokers)
        }
        None => push_racked(number_of(part)?, None, brokers),
    }
}

// No broker stands twice.
fn push_racked(id: i32, rack: Option<Text>, brokers: &mut Racked) -> Result<(), RowFault> {
    if brokers.contains(&id) {
        return Err(RowFault::Fields);
    }
    brokers.push(id, rack)?;
    Ok(())
}
