//! Contacts in order of time, linked by raw pointers.
#![tactic(auto)]

mod index;
mod list;
mod nodes;
mod places;
mod ring;
mod walk;

pub use list::ContactList;
