//! Rows on whom a leading controller hears of.

use kr_defs::Ids;
use std::alloc::{AllocError, Global};
use testlib_rule_answers::{Operation, heartbeats_answer};
use testlib_words::{Fields, RowFault};

/// A row has at most so many operations.
pub(crate) const MOST_OPERATIONS: u32 = 2_000;

/// Operations, each a word and what it is told: the contacts and the stopping brokers after them.
pub fn heartbeats_row(alloc: Global, fields: &mut Fields) -> Result<String, RowFault> {
    let mut operations = Vec::new(alloc);
    push_operations(alloc, fields, &mut operations)?;
    heartbeats_answer(alloc, &operations)
}

fn push_operations(
    alloc: Global,
    fields: &mut Fields,
    operations: &mut Vec<Operation>,
) -> Result<(), RowFault> {
    for _operation in 0..MOST_OPERATIONS {
        if fields.is_empty() {
            return Ok(());
        }
        let operation = read_operation(alloc, fields)?;
        operations.push(operation).map_err(AllocError::from)?;
    }
    Ok(())
}

fn read_operation(alloc: Global, fields: &mut Fields) -> Result<Operation, RowFault> {
    match fields.word()? {
        "begin" => read_begin(alloc, fields),
        "beat" => read_beat(fields),
        "stop" => read_stop(fields),
        "leave" => Ok(Operation::Leave {
            broker: fields.number()?,
        }),
        "end" => Ok(Operation::End),
        _ => Err(RowFault::Fields),
    }
}

fn read_begin(alloc: Global, fields: &mut Fields) -> Result<Operation, RowFault> {
    let mut unfenced = Ids::new(alloc);
    fields.ids(&mut unfenced)?;
    let mut stopping = Ids::new(alloc);
    fields.ids(&mut stopping)?;
    Ok(Operation::Begin {
        unfenced,
        stopping,
        now: fields.number()?,
        led: fields.number()?,
    })
}

fn read_beat(fields: &mut Fields) -> Result<Operation, RowFault> {
    Ok(Operation::Beat {
        broker: fields.number()?,
        now: fields.number()?,
        offset: fields.number()?,
    })
}

fn read_stop(fields: &mut Fields) -> Result<Operation, RowFault> {
    Ok(Operation::Stop {
        broker: fields.number()?,
        tip: fields.number()?,
    })
}
