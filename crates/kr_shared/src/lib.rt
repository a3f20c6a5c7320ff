//! One worker and its clients on threads of their own: the worker takes one job after the other and publishes what comes of
//! it, and each client has a seat at which it writes and reads.
#![tactic(auto)]

mod answers;
mod appends;
mod asked;
mod bell;
mod clients;
mod desk;
mod image_walk;
mod image_writing;
mod line;
mod links;
mod opening;
mod pins;
mod places;
mod reads;
mod sharing;
mod taking;
mod worker;

pub use asked::Asked;
pub use bell::Bell;
pub use clients::{ClientSeat, ClientSeats, SubmitFault};
pub use image_writing::{ImageWriteFault, write_image};
pub use links::LinkSeat;
pub use opening::open;
pub use pins::PinFault;
pub use places::MOST_PLACES;
pub use worker::{Turn, WorkerSeat};
