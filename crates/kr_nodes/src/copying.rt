//! The image of one node's closed end, which another one loads.

ghost use Rattle.std.specs.Prelude.{◌≡◌, ◌<◌, IfOk, MatchResult, OnOk, length};
ghost use Rattle.kr_store.specs.declared.places.At.TheVariants as places;
ghost use Rattle.kr_nodes.specs.inner.Acting.{AreIdle, IsIdleNode};
ghost use Rattle.kr_nodes.specs.inner.Copying.{GivesImage, ImagesNode, ImagesAt, IsCopyFault, IsImageEvent, LoadsEvent, LoadsAt, MayCopy};

use crate::ToldReply;
use crate::node::Node;
use crate::shared::Shared;
use kr_base::{NoMemory, Steps};
use kr_calls::Event;
use kr_defs::Rows;
use kr_snapshot::{SnapFault, write};
use kr_store::At;
use law_nodes::MoveFault;
use std::sync::ledger::Ledger;

// The place, of which the image is kept.
fn at_epoch(place: &i64) -> At
    ensures { result ≡ places.Epoch place.now }
{
    At::Epoch(*place)
}

impl Node {
    // The image at its closed end, as an event that brings it.
    fn image_event(&self) -> Result<Event, NoMemory>
        requires { IsIdleNode self.now }
        ensures { IfOk result (λ event. IsImageEvent self.now.engine event) }
    {
        let end = self.engine.closed();
        let at = at_epoch(&end);
        let mut bytes = Vec::new(self.pending.alloc);
        match write(self.pending.alloc, self.engine.store(), at, end, &mut bytes) {
            Ok(()) => Ok(Event::Load {
                bytes: Rows::from_vec(bytes),
            }),
            Err(SnapFault::NoEpoch | SnapFault::NoMemory) => Err(NoMemory),
        }
    }

    // That image is asked for, which another node is to load.
    fn image<L: Ledger>(
        &mut self,
        number: u32,
        shared: &mut Shared,
        steps: &mut Steps<L>,
    ) -> Result<Event, NoMemory>
        requires { IsIdleNode self.old }
        ensures { IfOk result (λ event. ImagesNode
            number self.old self.new shared.old shared.new event) }
    {
        let event = self.image_event()?;
        self.take(number, &Event::Image, false, &mut shared.told, steps)?;
        Ok(event)
    }

    // The image of another node's end comes, below which so many batches of the list are.
    fn load<L: Ledger>(
        &mut self,
        number: u32,
        event: &Event,
        end: i64,
        fed: usize,
        told: &mut Vec<ToldReply>,
        steps: &mut Steps<L>,
    ) -> Result<(), NoMemory>
        requires { IsIdleNode self.old }
        ensures { OnOk result (LoadsEvent number
            self.old self.new event.now end fed told.old.items told.new.items) }
    {
        self.take(number, event, false, told, steps)?;
        self.skip_to(end, fed);
        self.return_to_end();
        Ok(())
    }
}

/// The one node may load the image of the other's closed end: that end, and how many batches of the list are below it.
pub(crate) fn check_copy(nodes: &[Node], from: u32, to: u32) -> Result<(i64, usize), MoveFault>
    requires from { from < length nodes.now }
    requires to { to < length nodes.now }
    ensures { MatchResult result (λ found. MayCopy nodes.now from to found.0 found.1)
        (λ fault. IsCopyFault nodes.now from to fault) }
{
    let source = &nodes[from as usize];
    let target = &nodes[to as usize];
    target.check_standby(to)?;
    let offset = source.engine.closed();
    let end = target.engine.committed();
    if offset < end {
        return Err(MoveFault::OlderImage { offset, end });
    }
    Ok((offset, source.fed))
}

/// The image at a node's closed end, by its number.
pub(crate) fn image_at<L: Ledger>(
    nodes: &mut Vec<Node>,
    number: u32,
    shared: &mut Shared,
    steps: &mut Steps<L>,
) -> Result<Event, NoMemory>
    requires there { number < length nodes.old.items }
    requires idle { AreIdle nodes.old.items }
    ensures { IfOk result (λ event. ImagesAt
        number nodes.old.items nodes.new.items shared.old shared.new event) }
{
    nodes[number as usize].image(number, shared, steps)
}

/// A node loads an image, by the node's number.
pub(crate) fn load_at<L: Ledger>(
    nodes: &mut Vec<Node>,
    number: u32,
    event: &Event,
    end: i64,
    fed: usize,
    told: &mut Vec<ToldReply>,
    steps: &mut Steps<L>,
) -> Result<(), NoMemory>
    requires there { number < length nodes.old.items }
    requires idle { AreIdle nodes.old.items }
    ensures { OnOk result (LoadsAt number
        nodes.old.items nodes.new.items event.now end fed told.old.items told.new.items) }
{
    nodes[number as usize].load(number, event, end, fed, told, steps)
}
