//! Tests of what rows of `test_rows` can't show, below the engine: objects that fail, calls with memory to spare that no row
//! makes, and what a worker asks of the outside.
#![tactic(auto)]

#[cfg(test)]
mod contacts;
#[cfg(test)]
mod copies;
#[cfg(test)]
mod costs;
#[cfg(test)]
mod encoders;
#[cfg(test)]
mod objects;
#[cfg(test)]
mod outside;
#[cfg(test)]
mod timelines;
