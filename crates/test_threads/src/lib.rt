//! Tests of the worker, with its link and its clients on threads of their own.
#![tactic(auto)]

#[cfg(test)]
mod calls;
#[cfg(test)]
mod failed_append;
#[cfg(test)]
mod held_worker;
#[cfg(test)]
mod image_beside_commits;
#[cfg(test)]
mod many_clients;
#[cfg(test)]
mod open_transaction;
#[cfg(test)]
mod pages_beside_writes;
#[cfg(test)]
mod pinned_place;
#[cfg(test)]
mod setup;
#[cfg(test)]
mod stopped_worker;
#[cfg(test)]
mod threads;
