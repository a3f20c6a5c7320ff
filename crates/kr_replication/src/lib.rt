//! What handlers share that looks over an image and changes nothing: active brokers, settings, walks over partitions, and taking
//! a broker out.
#![tactic(auto)]

mod brokers;
mod changes;
mod collision;
mod electing;
mod leaders;
mod listed_walks;
mod settings;
mod taking_out;
mod topics;

pub use brokers::{ActiveOnes, BrokerTest, brokers_where, is_active};
pub use changes::Change;
pub use collision::has_agreeing_name;
pub use electing::{build_with, build_without, is_accepted};
pub use leaders::leads;
pub use listed_walks::{
    add_changes_of_broker, add_standing_changes, add_standing_changes_of_topic,
};
pub use settings::{is_unclean, minimum_at, minimum_of, value_at};
pub use taking_out::{default_want, fencing_records, take_out};
pub use topics::count_of;
