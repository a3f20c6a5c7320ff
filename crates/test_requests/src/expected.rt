//! What a row expects, and how an answer differs from it.

use kr_defs::{Record, Records};
use std::alloc::{AllocError, Global};
use testlib_rule_answers::record_of;
use testlib_words::{RowFault, number_of};

/// The expected message of a reply, in hex, and the records.
#[derive(Drop)]
pub(crate) struct Expected<'a> {
    pub reply: &'a str,
    pub records: Records,
}

/// A message in hex, a space, and the values of records.
pub(crate) fn expected_of(alloc: Global, words: &str) -> Result<Expected<'_>, RowFault> {
    let Some((reply, values)) = words.split_once(' ') else {
        return Err(RowFault::Fields);
    };
    let records = records_of(alloc, values)?;
    Ok(Expected { reply, records })
}

/// A broker whose session is over, and the expected records.
#[derive(Drop)]
pub(crate) struct Fenced {
    pub broker: i32,
    pub records: Records,
}

/// Brokers with a space between each two, each with a colon and its records behind it; `-` for none.
pub(crate) fn fenced_of(alloc: Global, words: &str) -> Result<Vec<Fenced>, RowFault> {
    let mut fenced = Vec::new(alloc);
    if words == "-" {
        return Ok(fenced);
    }
    for word in words.split(' ') {
        let one = one_fenced(alloc, word)?;
        fenced.push(one).map_err(AllocError::from)?;
    }
    Ok(fenced)
}

fn one_fenced(alloc: Global, word: &str) -> Result<Fenced, RowFault> {
    let Some((broker, values)) = word.split_once(':') else {
        return Err(RowFault::Fields);
    };
    let broker = number_of(broker)?;
    let records = records_of(alloc, values)?;
    Ok(Fenced { broker, records })
}

// The values of records in hex with commas between them, `-` for none.
fn records_of(alloc: Global, values: &str) -> Result<Records, RowFault> {
    let mut records = Records::new(alloc);
    if values == "-" {
        return Ok(records);
    }
    for digits in values.split(',') {
        records.push(record_of(alloc, digits)?)?;
    }
    Ok(records)
}

/// Whether the message is the expected one in hex; if not, the text tells both.
pub(crate) fn is_reply(
    alloc: Global,
    expected: &str,
    message: &[u8],
    text: &mut String,
) -> Result<bool, AllocError> {
    let came = hex::encode(alloc, message)?;
    if came.as_str() == expected {
        return Ok(true);
    }
    let pair = format!(in alloc; "the reply {expected} was expected, {came} came")?;
    text.push_str(&pair)?;
    Ok(false)
}

/// Whether the records are the expected ones; if not, the text tells the first that differ.
pub(crate) fn are_records(
    alloc: Global,
    expected: &[Record],
    came: &[Record],
    text: &mut String,
) -> Result<bool, AllocError> {
    let number = count_of_agreeing(expected, came);
    if number == expected.len() && number == came.len() {
        return Ok(true);
    }
    let pair = pair_text(alloc, number, expected.get(number), came.get(number))?;
    text.push_str(&pair)?;
    Ok(false)
}

// How many records agree before the first that don't.
fn count_of_agreeing(expected: &[Record], came: &[Record]) -> usize {
    let mut number = 0_usize;
    for record in expected {
        if came.get(number) != Some(record) {
            return number;
        }
        number = number.saturating_add(1);
    }
    number
}

fn pair_text(
    alloc: Global,
    number: usize,
    expected: Option<&Record>,
    came: Option<&Record>,
) -> Result<String, AllocError> {
    format!(in alloc; "as record {number} {expected:?} was expected, {came:?} came")
}
