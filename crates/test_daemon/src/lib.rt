//! Tests of a client's connection over memory, by rows, and of the daemon: its command line, and its threads over loopback.
#![tactic(auto)]

#[cfg(test)]
mod alone;
#[cfg(test)]
mod connections;
#[cfg(test)]
mod controller;
#[cfg(test)]
mod linked;
#[cfg(test)]
mod pages;
#[cfg(test)]
mod quorum;
#[cfg(test)]
mod replies;
#[cfg(test)]
mod rows;
#[cfg(test)]
mod talk;
#[cfg(test)]
mod talking;
#[cfg(test)]
mod words;
