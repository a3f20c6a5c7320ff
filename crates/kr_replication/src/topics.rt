//! How many partitions a topic counts.

ghost use Rattle.std.specs.Prelude.{◌≡◌, ◌<◌, ◌≤◌, ◌+◌, ◌^◌, IfSome, IsNone, pos, unsigned_abs};
ghost use Rattle.kr_defs.specs.Topics as topics;

use kr_defs::limits::LAST_INDEX;
use kr_store::{Seen, Store, before_all};

// The key of a topic's partition with this index.
fn key_at(id: &u128, index: u32) -> (u128, i32)
    requires { index < 2 ^ 31 }
    ensures { result ≡ (id.now, pos index) }
{
    (*id, index as i32)
}

fn index_of(key: &(u128, i32)) -> u32
    ensures { result ≡ unsigned_abs key.now.1 }
{
    key.1.unsigned_abs()
}

// The least index of the topic's partitions.
fn least_index<S: Store>(seen: &Seen<S>, id: &u128) -> Option<u32>
    ensures some { IfSome result (λ index. index < topics.count_of seen.now id.now) }
    ensures none { IsNone result → topics.count_of seen.now id.now ≡ 0 }
{
    seen.is_valid();
    match seen.next_of_topic(&before_all(id)) {
        Some((key, _partition)) => Some(index_of(key)),
        None => None,
    }
}

// The least index above this one of the topic's partitions.
fn index_above<S: Store>(seen: &Seen<S>, id: &u128, index: u32) -> Option<u32>
    requires { index < 2 ^ 31 }
    ensures greater { IfSome result (λ next. index < next) }
    ensures some { IfSome result (λ next. next < topics.count_of seen.now id.now) }
    ensures none { IsNone result → topics.count_of seen.now id.now ≤ index + 1 }
{
    seen.is_valid();
    match seen.next_of_topic(&key_at(id, index)) {
        Some((key, _partition)) => Some(index_of(key)),
        None => None,
    }
}

// The greatest index, which is one of these: each look halves them.
fn greatest_index<S: Store>(seen: &Seen<S>, id: &u128, low: u32, high: u32) -> u32
    requires low { low < topics.count_of seen.now id.now }
    requires high { topics.count_of seen.now id.now ≤ high + 1 }
    requires room { high < 2 ^ 31 }
    ensures { result + 1 ≡ topics.count_of seen.now id.now }
{
    if low >= high {
        return low;
    }
    let middle = low + (high - low) / 2;
    match index_above(seen, id, middle) {
        Some(index) => greatest_index(seen, id, index, high),
        None => greatest_index(seen, id, low, middle),
    }
}

// No partition has a greater index.
fn last_index<S: Store>(seen: &Seen<S>, id: &u128) -> u32
    ensures count { topics.count_of seen.now id.now ≤ result + 1 }
    ensures room { result < 2 ^ 31 }
{
    seen.is_valid();
    LAST_INDEX.unsigned_abs()
}

/// One more than the greatest index of the topic's partitions, 0 where it has none. It costs a few looks, however many it has.
pub fn count_of<S: Store>(seen: &Seen<S>, id: &u128) -> u32
    ensures { result ≡ topics.count_of seen.now id.now }
{
    match least_index(seen, id) {
        Some(index) => greatest_index(seen, id, index, last_index(seen, id)) + 1,
        None => 0,
    }
}
