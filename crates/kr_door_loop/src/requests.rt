//! Messages of requests from JSON.

ghost use Rattle.kr_door_loop.specs.Requests.{AnswersRequest};

use crate::{Answer, DoorRefusal};
use kr_request_json::{RequestFault, request_bytes};
use std::alloc::Global;

/// The message of the request that the text is in JSON.
pub(crate) fn write_request(alloc: Global, text: &[u8]) -> Answer
    ensures { AnswersRequest text.now result }
{
    match request_bytes(alloc, text) {
        Ok(message) => Ok(message),
        Err(RequestFault::NotJson) => Err(DoorRefusal::NotJson),
        Err(RequestFault::UnknownRequest) => Err(DoorRefusal::UnknownRequest),
        Err(RequestFault::BadField) => Err(DoorRefusal::BadField),
        Err(RequestFault::NoMemory) => Err(DoorRefusal::NoMemory),
    }
}
