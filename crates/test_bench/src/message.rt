//! A message from standard input.

use crate::request::ask;
use kr_calls::Ask;
use std::io::{Input, Print, Read};

/// How many bytes there is room for at first.
const ROOM: usize = 1 << 23;

/// Reads all of standard input as one message and prints a line on it. What is measured is how much memory that takes.
pub(crate) fn print_message<R: Input + Print + AllocGlobal>(rt: &R) -> anyhow::Result<()> {
    let mut message = Vec::with_capacity(rt.alloc(), ROOM)?;
    rt.reader().read_to_end(&mut message)?;
    let what = match ask(rt.alloc(), &message)? {
        Ask::Call(_) => "a call",
        Ask::Bare { .. } => "no call",
    };
    println!(rt; "message: {} bytes, {what}", message.len())?;
    Ok(())
}
