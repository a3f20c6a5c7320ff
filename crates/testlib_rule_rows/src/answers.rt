//! The answers to what a row asks one after the other.

use std::alloc::{AllocError, Global};

/// Answers, with `; ` between them.
#[derive(Drop)]
pub(crate) struct Answers {
    text: String,
}

impl Answers {
    pub(crate) fn new(alloc: Global) -> Answers {
        Answers {
            text: String::new(alloc),
        }
    }

    /// What is pushed from here on is the next answer.
    pub(crate) fn begin(&mut self) -> Result<(), AllocError> {
        if self.text.is_empty() {
            return Ok(());
        }
        self.text.push_str("; ")
    }

    pub(crate) fn push(&mut self, words: &str) -> Result<(), AllocError> {
        self.text.push_str(words)
    }

    pub(crate) fn push_all(&mut self, pieces: &[&str]) -> Result<(), AllocError> {
        for piece in pieces {
            self.push(piece)?;
        }
        Ok(())
    }

    /// The words, and behind them the number.
    pub(crate) fn push_number(
        &mut self,
        alloc: Global,
        words: &str,
        number: i64,
    ) -> Result<(), AllocError> {
        self.push(words)?;
        let digits = format!(in alloc; "{number}")?;
        self.push(&digits)
    }

    pub(crate) fn add(&mut self, words: &str) -> Result<(), AllocError> {
        self.begin()?;
        self.push(words)
    }

    /// All of them; `-` for none.
    pub(crate) fn text(self, alloc: Global) -> Result<String, AllocError> {
        if self.text.is_empty() {
            return String::from_str(alloc, "-");
        }
        Ok(self.text)
    }
}
