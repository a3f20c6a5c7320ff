//! The fields of a row, with a space between each two.

use crate::fault::RowFault;
use hex::FromHexError;
use kr_defs::Ids;
use std::alloc::Global;
use std::str::FromStr;

/// The fields that are left of a row.
#[derive(Drop)]
pub struct Fields<'a> {
    // The text that is left, if any.
    left: Option<&'a str>,
}

impl<'a> Fields<'a> {
    /// All fields of a row's text.
    pub fn new(text: &'a str) -> Fields<'a> {
        Fields { left: Some(text) }
    }

    /// The next field, up to a space or to the end; Fields where none is left.
    pub fn word(&mut self) -> Result<&'a str, RowFault> {
        let Some(left) = self.left else {
            return Err(RowFault::Fields);
        };
        match left.split_once(' ') {
            Some((word, behind)) => {
                self.left = Some(behind);
                Ok(word)
            }
            None => {
                self.left = None;
                Ok(left)
            }
        }
    }

    /// A number, or `true` or `false`.
    pub fn number<T: FromStr>(&mut self) -> Result<T, RowFault>
    where
        T::Err: Drop,
    {
        number_of(self.word()?)
    }

    /// A number, or `.` for none.
    pub fn number_or_none<T: FromStr>(&mut self) -> Result<Option<T>, RowFault>
    where
        T::Err: Drop,
    {
        let word = self.word()?;
        if word == "." {
            return Ok(None);
        }
        Ok(Some(number_of(word)?))
    }

    /// Bytes in hex, `-` for none.
    pub fn bytes(&mut self, alloc: Global) -> Result<Vec<u8>, RowFault> {
        bytes_of(alloc, self.word()?)
    }

    /// Puts ids at the end of the list: with commas between them, `-` for none.
    pub fn ids(&mut self, list: &mut Ids) -> Result<(), RowFault> {
        push_ids(self.word()?, list)
    }

    /// Ids, or `.` where no list is given.
    pub fn ids_or_none(&mut self, alloc: Global) -> Result<Option<Ids>, RowFault> {
        let word = self.word()?;
        if word == "." {
            return Ok(None);
        }
        let mut list = Ids::new(alloc);
        push_ids(word, &mut list)?;
        Ok(Some(list))
    }

    /// The bar between two groups of fields.
    pub fn bar(&mut self) -> Result<(), RowFault> {
        if self.word()? == "/" {
            return Ok(());
        }
        Err(RowFault::Fields)
    }

    /// No word is left.
    pub fn is_empty(&self) -> bool {
        self.left.is_none()
    }

    /// The row ends here.
    pub fn end(&self) -> Result<(), RowFault> {
        if self.is_empty() {
            return Ok(());
        }
        Err(RowFault::Fields)
    }
}

/// The number, or the `true` or `false`, that a word spells.
pub fn number_of<T: FromStr>(word: &str) -> Result<T, RowFault>
where
    T::Err: Drop,
{
    match word.parse() {
        Ok(number) => Ok(number),
        Err(_) => Err(RowFault::Fields),
    }
}

/// The bytes that a word spells in hex, `-` for none.
pub fn bytes_of(alloc: Global, word: &str) -> Result<Vec<u8>, RowFault> {
    if word == "-" {
        return Ok(Vec::new(alloc));
    }
    match hex::decode(alloc, word) {
        Ok(bytes) => Ok(bytes),
        Err(FromHexError::OutOfMemory) => Err(RowFault::NoMemory),
        Err(_) => Err(RowFault::Fields),
    }
}

fn push_ids(word: &str, list: &mut Ids) -> Result<(), RowFault> {
    if word == "-" {
        return Ok(());
    }
    for part in word.split(',') {
        list.push(number_of(part)?)?;
    }
    Ok(())
}
