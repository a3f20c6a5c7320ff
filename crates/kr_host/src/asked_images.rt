//! How many images the quorum asked for.

use kr_shared::Bell;
use std::sync::Wait;
use std::sync::atomic::{AtomicBool, AtomicU64, Ordering};

/// A count that the link's thread raises, and at which the thread of the images waits.
#[derive(Drop)]
pub struct AskedImages {
    asked: AtomicU64,
    is_over: AtomicBool,
    // Rung at each change.
    news: Bell,
}

impl AskedImages {
    pub(crate) fn new() -> AskedImages {
        AskedImages {
            asked: AtomicU64::new(0),
            is_over: AtomicBool::new(false),
            news: Bell::new(),
        }
    }

    /// One more is asked for, by the link's thread alone.
    pub(crate) fn ask<R: Wait>(&self, rt: &R) {
        let asked = self.asked.load(Ordering::SeqCst);
        self.asked.store(asked.wrapping_add(1), Ordering::SeqCst);
        self.news.ring(rt);
    }

    /// The link has ended, so none is wanted any more.
    pub(crate) fn end<R: Wait>(&self, rt: &R) {
        self.is_over.store(true, Ordering::SeqCst);
        self.news.ring(rt);
    }

    /// Waits until more are asked for than were made, or until none is wanted any more.
    pub(crate) fn is_wanted<R: Wait>(&self, rt: &R, made: u64) -> bool {
        for _ in rt.forever() {
            let seen = self.news.number(rt);
            if self.is_over.load(Ordering::SeqCst) {
                return false;
            }
            if self.asked.load(Ordering::SeqCst) != made {
                return true;
            }
            self.news.wait_past(rt, seen);
        }
        unreachable!()
    }
}
