//! That threads may share a copy, and that a seat and the publisher may be given to a thread.

use crate::publisher::Publisher;
use crate::seat::ReaderSeat;
use crate::shown::Shown;

fn is_shared<T: Send + Sync>(_value: &T) {}

fn is_sent<T: Send>(_value: &T) {}

pub(crate) fn a_copy_is_shared(shown: &Shown) {
    is_shared(shown);
}

pub(crate) fn a_seat_is_sent(seat: &ReaderSeat) {
    is_sent(seat);
}

pub(crate) fn a_publisher_is_sent(publisher: &Publisher) {
    is_sent(publisher);
}
