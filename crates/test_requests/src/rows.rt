//! What a row asks, read from its fields, and done.

use crate::controller::Controller;
use crate::expected::{expected_of, fenced_of};
use kr_base::Steps;
use kr_defs::{Options, Text};
use std::alloc::Global;
use std::sync::ledger::Ledger;
use testlib_words::{Fields, RowFault};

/// Does what the row asks: a word, its fields with a space between each two, a tab, and what is expected. To the text
/// is added how what comes differs from that.
pub(crate) fn do_row<L: Ledger>(
    alloc: Global,
    controller: &mut Option<Controller>,
    line: &str,
    text: &mut String,
    steps: &mut Steps<L>,
) -> Result<(), RowFault> {
    let Some((asked, expected)) = line.split_once('\t') else {
        return Err(RowFault::Fields);
    };
    let Some((word, fields)) = asked.split_once(' ') else {
        return Err(RowFault::Fields);
    };
    if word == "open" {
        return open(alloc, controller, fields);
    }
    let Some(current) = controller else {
        return Err(RowFault::Fields);
    };
    match word {
        "ask" => ask(alloc, current, fields, expected, text, steps),
        "tick" => tick(alloc, current, fields, expected, text, steps),
        _ => Err(RowFault::Fields),
    }
}

// A controller with these options begins to lead at place 0 and time 0, over an empty image.
fn open(alloc: Global, controller: &mut Option<Controller>, fields: &str) -> Result<(), RowFault> {
    let options = options_of(alloc, fields)?;
    *controller = Some(Controller::new(alloc, options)?);
    Ok(())
}

// A time, and a message without its size.
fn ask<L: Ledger>(
    alloc: Global,
    controller: &mut Controller,
    fields: &str,
    expected: &str,
    text: &mut String,
    steps: &mut Steps<L>,
) -> Result<(), RowFault> {
    let mut fields = Fields::new(fields);
    controller.set_time(time(&mut fields)?);
    let message = fields.bytes(alloc)?;
    fields.end()?;
    let expected = expected_of(alloc, expected)?;
    controller.ask(alloc, &message, &expected, text, steps)
}

// A time: sessions may be over.
fn tick<L: Ledger>(
    alloc: Global,
    controller: &mut Controller,
    fields: &str,
    expected: &str,
    text: &mut String,
    steps: &mut Steps<L>,
) -> Result<(), RowFault> {
    let mut fields = Fields::new(fields);
    controller.set_time(time(&mut fields)?);
    fields.end()?;
    let fenced = fenced_of(alloc, expected)?;
    controller.tick(alloc, &fenced, text, steps)
}

// A time isn't below 0.
fn time(fields: &mut Fields) -> Result<i64, RowFault> {
    let now: i64 = fields.number()?;
    if now < 0 {
        return Err(RowFault::Fields);
    }
    Ok(now)
}

// Node, salt, length of a session, partitions, factor, minimum, and the cluster's id in hex.
fn options_of(alloc: Global, fields: &str) -> Result<Options, RowFault> {
    let mut fields = Fields::new(fields);
    let (node, salt, session_ms) = whose(&mut fields)?;
    let (partitions, factor, minimum) = defaults(&mut fields)?;
    Ok(Options {
        node,
        salt,
        session_ms,
        partitions,
        factor,
        minimum,
        cluster: cluster_of(alloc, &mut fields)?,
    })
}

fn whose(fields: &mut Fields) -> Result<(i32, u64, u32), RowFault> {
    Ok((fields.number()?, fields.number()?, fields.number()?))
}

fn defaults(fields: &mut Fields) -> Result<(i32, i16, i32), RowFault> {
    Ok((fields.number()?, fields.number()?, fields.number()?))
}

// A text in hex, behind which the row ends.
fn cluster_of(alloc: Global, fields: &mut Fields) -> Result<Text, RowFault> {
    let bytes = fields.bytes(alloc)?;
    fields.end()?;
    match std::str::from_utf8(&bytes) {
        Ok(text) => Ok(Text::from_str(alloc, text)?),
        Err(_) => Err(RowFault::Fields),
    }
}
