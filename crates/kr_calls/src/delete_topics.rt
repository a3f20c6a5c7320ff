//! DeleteTopics (key 20, version 6): the request and its reply. Fields are those of Kafka's schemas, without timeouts, throttle times
//! and messages.

use kr_defs::{Rows, Text};

/// A topic to delete, by its name or by its id (DeleteTopicState).
#[derive(Drop)]
pub struct DeleteTopicState {
    /// Its name, or null where it is given by its id.
    pub name: Option<Text>,
    /// Its id, 0 where it is given by its name.
    pub topic: u128,
}

/// A list of topics to delete, in the order of the request.
pub type DeleteTopicStates = Rows<DeleteTopicState>;

/// Topics are to be deleted (DeleteTopicsRequest, version 6).
#[derive(Drop)]
pub struct DeleteTopics {
    /// The topics, each judged alone.
    pub topics: DeleteTopicStates,
}

/// The answer for one topic to delete (DeletableTopicResult).
#[derive(Drop)]
pub struct DeletableTopicResult {
    /// Its name; of a refused one as it was given.
    pub name: Option<Text>,
    /// Its id; of a refused one as it was given.
    pub topic: u128,
    /// Kafka's error number, 0 for none.
    pub error: i16,
}

/// A list of answers, in the order of the request.
pub type DeletableTopicResults = Rows<DeletableTopicResult>;

/// The reply to a DeleteTopics (DeleteTopicsResponse, version 6).
#[derive(Drop)]
pub struct DeleteTopicsReply {
    /// An answer for each topic.
    pub responses: DeletableTopicResults,
}
