//! Tests of the event queue, in one thread and with a worker and four clients on threads of their own; of copies that one thread
//! shows and another reads, and of a place that is kept in them.
#![tactic(auto)]

#[cfg(test)]
mod copies;
#[cfg(test)]
mod pages;
#[cfg(test)]
mod pins;
#[cfg(test)]
mod queue;
#[cfg(test)]
mod shown;
