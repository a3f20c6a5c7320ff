//! The move of a round.

ghost use Rattle.std.specs.Prelude.{◌≡◌, ◌<◌, ◌≤◌, IfOk, pos};
ghost use Rattle.std.specs.Int.{int_max};
ghost use Rattle.kr_nodes.specs.Standing.{IsWriteMove};
ghost use Rattle.kr_drive.specs.Driving as driving;

use kr_base::NoMemory;
use kr_calls::Call;
use kr_nodes::Move;
use kr_workload::note;
use std::alloc::Global;

// The number, or 0 where that is greater.
fn natural(number: &i32) -> i32
    ensures { result ≡ int_max number.now (pos 0) }
{
    if 0 < *number { *number } else { 0 }
}

// The epoch above each in which a node was elected.
fn epoch_above(elected: &i32) -> i32
    ensures { result ≡ driving.epoch_above elected.now }
{
    natural(elected).saturating_add(1)
}

// A client sets the key `note` to the round's number.
fn ask(alloc: Global, round: u32, node: u32) -> Result<Move, NoMemory>
    requires { round ≤ 1000000000 }
    ensures { IfOk result (λ turn. turn ≡ driving.asked_move round node) }
{
    Ok(Move::Ask {
        node,
        client: 1,
        now: 0,
        call: Call {
            correlation: round as i32,
            request: note(alloc, round)?,
        },
    })
}

fn copy(node: u32) -> Move
    requires { node < 3 }
    ensures { result ≡ driving.copied_move node }
{
    Move::Copy {
        from: node,
        to: (node + 1) % 3,
    }
}

/// The move of a round that draws its kind, 0 to 7, and a node.
pub(crate) fn drawn_move(
    alloc: Global,
    elected: &i32,
    round: u32,
    kind: u64,
    node: u32,
) -> Result<Move, NoMemory>
    requires round { round ≤ 1000000000 }
    requires node { node < 3 }
    ensures turn { IfOk result (λ turn. turn ≡ driving.drawn_move elected.now round kind node) }
    ensures write { IfOk result (λ turn. IsWriteMove turn) }
{
    match kind {
        0 => Ok(Move::Feed { node }),
        1 => Ok(Move::Elect {
            node,
            epoch: epoch_above(elected),
            now: 0,
        }),
        2 | 3 => ask(alloc, round, node),
        4 => Ok(Move::Settle { node }),
        5 => Ok(Move::Tell { node }),
        6 => Ok(Move::Depose { node }),
        _ => Ok(copy(node)),
    }
}
