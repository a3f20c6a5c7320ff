//! What was told, as words.

use crate::moves::push_number;
use kr_defs::{Item, Record};
use kr_nodes::ToldReply;
use kr_req::encode_reply;
use std::alloc::{AllocError, Global};
use testlib_rule_answers::record_of;
use testlib_words::{RowFault, hex_text};

/// Of each reply `told`, its node, client, correlation and place, `-` where it tells no items, `=` where they are those that are to
/// be told, else `?`, and its message in hex. The items of each reply that has some stand with slashes between them, each as its
/// value in hex, with commas between.
pub(crate) fn add_told(
    alloc: Global,
    told: &[ToldReply],
    items: &str,
    text: &mut String,
) -> Result<(), RowFault> {
    let mut left = items;
    for one in told {
        let (list, behind) = list_of(one, left);
        add_one(alloc, one, list, text)?;
        left = behind;
    }
    Ok(())
}

// The list of a reply that tells items, and what is left behind it.
fn list_of<'a>(told: &ToldReply, left: &'a str) -> (&'a str, &'a str) {
    if told.items.as_slice().is_empty() {
        return ("", left);
    }
    match left.split_once('/') {
        Some(parts) => parts,
        None => (left, ""),
    }
}

fn add_one(alloc: Global, told: &ToldReply, list: &str, text: &mut String) -> Result<(), RowFault> {
    push_asker(alloc, told, text)?;
    let word = items_word(alloc, told.items.as_slice(), list)?;
    text.push_str(word)?;
    push_message(alloc, told, text)
}

fn push_asker(alloc: Global, told: &ToldReply, text: &mut String) -> Result<(), AllocError> {
    text.push_str(" told")?;
    push_number(alloc, i64::from(told.node), text)?;
    push_number(alloc, i64::from(told.client), text)?;
    push_number(alloc, i64::from(told.correlation), text)?;
    push_number(alloc, told.place, text)
}

// The message in hex.
fn push_message(alloc: Global, told: &ToldReply, text: &mut String) -> Result<(), RowFault> {
    let mut message = Vec::new(alloc);
    encode_reply(told.correlation, &told.reply, &mut message)?;
    Ok(push_hex(alloc, &message, text)?)
}

fn push_hex(alloc: Global, bytes: &[u8], text: &mut String) -> Result<(), AllocError> {
    let digits = hex_text(alloc, bytes)?;
    text.push_str(&digits)
}

// Between spaces.
fn items_word(alloc: Global, items: &[Item], list: &str) -> Result<&'static str, RowFault> {
    if items.is_empty() {
        return Ok(" - ");
    }
    Ok(if are_items(alloc, items, list)? {
        " = "
    } else {
        " ? "
    })
}

fn are_items(alloc: Global, items: &[Item], list: &str) -> Result<bool, RowFault> {
    let mut number = 0_usize;
    for word in list.split(',') {
        if !is_item(alloc, items.get(number), word)? {
            return Ok(false);
        }
        number = number.saturating_add(1);
    }
    Ok(number == items.len())
}

fn is_item(alloc: Global, item: Option<&Item>, word: &str) -> Result<bool, RowFault> {
    let record = record_of(alloc, word)?;
    Ok(has_record(item, &record))
}

fn has_record(item: Option<&Item>, record: &Record) -> bool {
    match item {
        Some(Item::Record(came)) => came == record,
        _ => false,
    }
}
