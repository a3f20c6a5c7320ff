//! What a request is judged by, besides the image.

use crate::sessions::Sessions;
use kr_defs::Options;

/// What a request is judged by, besides the image.
#[derive(Drop)]
pub struct Context<'a> {
    /// The settings of the cluster.
    pub options: &'a Options,
    /// Which brokers were heard of, and when.
    pub sessions: &'a Sessions,
    /// The present time, in milliseconds.
    pub now: i64,
    /// The place that the next record will have.
    pub place: i64,
}
