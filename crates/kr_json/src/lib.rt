//! A record of the metadata log as Kafka's tools show it: a line of JSON; and the values' own texts.
#![tactic(auto)]

mod json;
mod kinds;
mod line;
mod members;
mod place;
mod text;

pub use json::Json;
pub use line::put_line;
pub use place::Place;
pub use text::put_str;
