//! What a client sends and what it expects.

ghost use Rattle.std.specs.Prelude.{IsTrue};
ghost use Rattle.kr_defs.specs.OpenOptions as opening;

use kr_defs::{Bytes, Options, Text};
use std::alloc::Global;
use testlib_words::{Fields, RowFault, bytes_of};

/// Options with which a controller may be started.
#[derive(Drop)]
pub(crate) struct Setting {
    pub options: Options,
    ghost fit: { IsTrue (opening.are_options options) },
}

/// What a controller's worker is told before its client.
#[derive(Drop)]
pub(crate) enum First {
    /// The node leads since place 0 and time 0.
    Lead,
    /// An image's text comes from another leader.
    Load(Bytes),
    /// The worker is stopped.
    Stop,
}

/// What a client sends to a controller with these settings, the time of each of its writes, the numbers of the reads and of the
/// puts that fail, and the replies that are expected.
#[derive(Drop)]
pub(crate) struct Talk {
    pub setting: Setting,
    pub first: First,
    pub bytes: Vec<u8>,
    pub times: Vec<i64>,
    pub failing_reads: Vec<u64>,
    pub failing_puts: Vec<usize>,
    pub replies: Vec<Vec<u8>>,
}

impl Talk {
    /// Nothing is sent yet, and nothing fails.
    pub(crate) fn new(alloc: Global, fields: &str) -> Result<Talk, RowFault> {
        let setting = setting_of(alloc, fields)?;
        Ok(Talk {
            setting,
            first: First::Lead,
            bytes: Vec::new(alloc),
            times: Vec::new(alloc),
            failing_reads: Vec::new(alloc),
            failing_puts: Vec::new(alloc),
            replies: Vec::new(alloc),
        })
    }

    /// Adds what a row asks: to send a message, or that a read or a put fails, or that an image is loaded or the worker stopped.
    pub(crate) fn add(
        &mut self,
        alloc: Global,
        word: &str,
        fields: &str,
        expected: &str,
    ) -> Result<(), RowFault> {
        let mut fields = Fields::new(fields);
        match word {
            "send" => self.send(alloc, &mut fields, expected),
            "fail-read" => push(&mut self.failing_reads, fields.number()?),
            "fail-put" => push(&mut self.failing_puts, fields.number()?),
            "load" => {
                self.first = First::Load(Bytes::from_vec(fields.bytes(alloc)?));
                Ok(())
            }
            "stop" => {
                self.first = First::Stop;
                Ok(())
            }
            _ => Err(RowFault::Fields),
        }
    }

    // A time, where it is a write, and a message; and its reply. Both are behind their sizes.
    fn send(&mut self, alloc: Global, fields: &mut Fields, expected: &str) -> Result<(), RowFault> {
        if let Some(time) = fields.number_or_none()? {
            push(&mut self.times, time)?;
        }
        self.bytes.extend_from_slice(&fields.bytes(alloc)?)?;
        push(&mut self.replies, bytes_of(alloc, expected)?)
    }
}

fn push<T: Drop>(list: &mut Vec<T>, item: T) -> Result<(), RowFault> {
    match list.push(item) {
        Ok(()) => Ok(()),
        Err(_) => Err(RowFault::NoMemory),
    }
}

fn setting_of(alloc: Global, fields: &str) -> Result<Setting, RowFault> {
    let options = options_of(alloc, fields)?;
    if !options.is_fit() {
        return Err(RowFault::Fields);
    }
    Ok(Setting { options })
}

// Node, salt, length of a session, partitions, factor, minimum, and the cluster's id.
fn options_of(alloc: Global, fields: &str) -> Result<Options, RowFault> {
    let mut fields = Fields::new(fields);
    Ok(Options {
        node: fields.number()?,
        salt: fields.number()?,
        session_ms: fields.number()?,
        partitions: fields.number()?,
        factor: fields.number()?,
        minimum: fields.number()?,
        cluster: Text::from_str(alloc, fields.word()?)?,
    })
}
