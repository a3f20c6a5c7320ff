//! The words of the command line.

use kr_defs::Text;
use std::env;
use std::io::{self, ErrorKind};
use std::rt::Env;

/// Why the words aren't known.
#[derive(Clone, Copy, Debug, Drop, PartialEq, Eq, thiserror::Error)]
pub enum WordsFault {
    #[error("a word isn't text")]
    NotText,
    #[error("out of memory")]
    NoMemory,
}

impl From<io::Error> for WordsFault {
    fn from(fault: io::Error) -> WordsFault {
        if fault.kind() == ErrorKind::InvalidData {
            WordsFault::NotText
        } else {
            WordsFault::NoMemory
        }
    }
}

/// The words behind the program's name.
pub fn words_of<R: Env + AllocGlobal>(rt: &R) -> Result<Vec<Text>, WordsFault> {
    Ok(read_words(rt)?)
}

fn read_words<R: Env + AllocGlobal>(rt: &R) -> io::Result<Vec<Text>> {
    let mut words = Vec::new(rt.alloc());
    for word in env::args(rt)?.skip(1) {
        words.push(Text::from_string(word))?;
    }
    Ok(words)
}
