//! Why a line of a tape isn't allowed.

/// Why no link that keeps its rules can have brought a line about.
#[derive(Debug, Drop, thiserror::Error)]
pub enum Fault {
    #[error("there is no such node")]
    NoNode,
    #[error("no link called for this append")]
    NoCall,
    #[error("no link called for this image to be kept")]
    NoKeep,
    #[error("the keys that the change compares aren't so")]
    OtherKeys,
    #[error("it isn't the next revision")]
    OtherRevision,
    #[error("the log doesn't end there behind it")]
    OtherEnd,
    #[error("other batches are dropped than those for which the image stands")]
    OtherFirst,
    #[error("the link holds a leadership")]
    Holds,
    #[error("it was told of this epoch before")]
    ToldBefore,
    #[error("the node has no such leadership")]
    NotTaken,
    #[error("the daemon leads")]
    Leads,
    #[error("no such batch stands in the log at that place")]
    NotInLog,
    #[error("the image is of an earlier place")]
    OlderImage,
    #[error("no batch of the log ends at the place of the image")]
    NoBoundary,
    #[error("the image isn't the fold of the log up to its place")]
    OtherImage,
    #[error("the link doesn't hold this leadership")]
    NotHeld,
    #[error("the daemon isn't at the place")]
    OtherPlace,
    #[error("the daemon doesn't lead in this epoch")]
    NotLeading,
    #[error("the batch is empty")]
    Empty,
    #[error("the node never led in this epoch")]
    NeverLed,
    #[error("the node leads in this epoch")]
    StillHeld,
    #[error("it isn't the next batch from the daemon")]
    NotNext,
    #[error("the batch is of the epoch that is led")]
    OfTheEpoch,
    #[error("an append is under way")]
    UnderWay,
    #[error("no append is under way")]
    NoneAsked,
}
