//! That the seats may be given to threads.

use crate::clients::ClientSeat;
use crate::links::LinkSeat;
use crate::worker::WorkerSeat;

fn is_sent<T: Send>(_value: &T) {}

pub(crate) fn a_link_is_sent(seat: &LinkSeat) {
    is_sent(seat);
}

pub(crate) fn a_client_is_sent(seat: &ClientSeat) {
    is_sent(seat);
}

pub(crate) fn a_worker_is_sent(seat: &WorkerSeat) {
    is_sent(seat);
}
