//! What a controller's worker shows of its log, and the readers of it: two copies of the committed image, which readers never
//! wait for.
#![tactic(auto)]

mod edge;
pub mod laws;
mod listing;
mod looks;
mod opening;
mod page;
mod pins;
mod publisher;
mod record_key;
mod record_page;
mod record_reader;
mod rule;
mod run;
mod scans;
mod seat;
mod sharing;
mod shown;
mod standing;
mod table;
mod window;

pub use looks::Look;
pub use opening::{Opening, ReaderSeats, ViewFault, open};
pub use publisher::Publisher;
pub use record_key::RecordKey;
pub use record_reader::RecordReader;
pub use rule::ThreadView;
pub use scans::{Page, PageRow, ScanFault, ScanKey};
pub use seat::{CopyFault, ReaderSeat};
