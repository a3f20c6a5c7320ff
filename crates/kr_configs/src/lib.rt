//! What is decided of changes of settings.
#![tactic(auto)]

mod incremental_alter_configs;
mod operations;
mod parts;
mod records;
mod reliefs;
mod resources;
mod values;

pub use incremental_alter_configs::IncrementalAlterConfigsHandler;
