//! Which node a move is made with.

ghost use Rattle.std.specs.Prelude.{◌≡◌, ◌<◌, length};
ghost use Rattle.kr_nodes.specs.inner.Acting as acting;
ghost use Rattle.kr_nodes.specs.inner.Acting.{Acts, ActsAt, AreIdle, IsIdleNode, IsOfOne};
ghost use Rattle.kr_nodes.specs.Standing.{IsWriteMove};

use crate::node::Node;
use crate::shared::Shared;
use kr_base::Steps;
use law_nodes::{Move, MoveFault};
use std::sync::ledger::Ledger;

impl Node {
    // A move of one node.
    fn act<L: Ledger>(
        &mut self,
        number: u32,
        turn: Move,
        shared: &mut Shared,
        steps: &mut Steps<L>,
    ) -> Result<(), MoveFault>
        requires idle { IsIdleNode self.old }
        requires write { IsWriteMove turn }
        requires one { IsOfOne turn }
        ensures { Acts (λ options r n. acting.one_outcome options r number n turn)
            number self.old self.new shared.old shared.new result }
    {
        match turn {
            Move::Feed { .. } => self.feed(number, shared, steps),
            Move::Elect { epoch, now, .. } => self.elect(number, epoch, now, shared, steps),
            Move::Ask {
                client,
                now,
                call,
                ..
            } => self.ask(number, client, now, call, shared, steps),
            Move::Tick { now, .. } => self.tick(number, now, shared, steps),
            Move::Settle { .. } => self.settle(number, shared),
            Move::Tell { .. } => self.tell(number, shared, steps),
            Move::Depose { .. } => self.depose(number, shared, steps),
            Move::Copy { .. } => Ok(()),
        }
    }
}

/// A move of one node, by its number.
pub(crate) fn act_at<L: Ledger>(
    nodes: &mut Vec<Node>,
    number: u32,
    turn: Move,
    shared: &mut Shared,
    steps: &mut Steps<L>,
) -> Result<(), MoveFault>
    requires there { number < length nodes.old.items }
    requires idle { AreIdle nodes.old.items }
    requires write { IsWriteMove turn }
    requires one { IsOfOne turn }
    ensures { ActsAt (λ options r n. acting.one_outcome options r number n turn)
        number nodes.old.items nodes.new.items shared.old shared.new result }
{
    nodes[number as usize].act(number, turn, shared, steps)
}
