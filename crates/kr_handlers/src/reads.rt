//! Each request that changes nothing, answered at a place.

ghost use Rattle.kr_calls.specs.Decide.{query};
ghost use Rattle.kr_store.specs.Reads.{LooksUp};

use kr_calls::{Reply, Request};
use kr_defs::Options;
use kr_partitions::list_partition_reassignments;
use kr_store::{At, ReadFault, Seen, Store};
use kr_topics::metadata;
use std::alloc::Global;

/// The reply to a read on the image at the place; none to a write. NoEpoch exactly where that is an epoch that isn't
/// kept; NoMemory.
#[tactic(auto, unfolding(kr_calls::specs::Decide::query))]
pub fn read<S: Store>(
    alloc: Global,
    store: &S,
    at: At,
    options: &Options,
    request: &Request,
) -> Result<Option<Reply>, ReadFault>
    ensures { LooksUp (S.images store.now) at result (λ image. query options.now image request.now) }
{
    let seen = Seen::at(store, at)?;
    Ok(match request {
        Request::ListPartitionReassignments(q) => {
            Some(list_partition_reassignments::answer(alloc, &seen, options, q)?)
        }
        Request::Metadata(q) => Some(metadata::answer(alloc, &seen, options, q)?),
        _ => None,
    })
}
