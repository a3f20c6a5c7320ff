//! Tests of whole sessions that rows of `test_rows` can't show: over objects that fail, of many rounds, and of a number; and of
//! the tool's words and notes.
#![tactic(auto)]

#[cfg(test)]
mod commands;
#[cfg(test)]
mod rounds;
#[cfg(test)]
mod sessions;
#[cfg(test)]
mod summaries;
