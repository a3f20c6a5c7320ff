//! One contact after the other, in their order.

ghost use Rattle.std.specs.Prelude.{◌≡◌, ◌+◌, ◌≤◌, int_le, length, IfOk};
ghost use Rattle.std.specs.Vec.{vec_ptr};
ghost use Rattle.kr_contact.specs.Contacts.{expired_among};
ghost use Rattle.kr_contact.specs.Rings.{AreKnown, contacts_from};

use crate::nodes::{self, Node, Place};
use kr_base::{NoMemory, Steps};
use kr_defs::{Contacts, Ids};
use std::alloc::Global;
use std::sync::ledger::Ledger;

// The contact was heard of at the limit or before.
fn is_old(node: &Node, limit: &i64) -> bool
    ensures { result ≡ int_le node.now.time limit.now }
{
    node.time <= *limit
}

fn broker_of(node: &Node) -> i32
    ensures { result ≡ node.now.broker }
{
    node.broker
}

// Of so many contacts, from the place on, the brokers of the front whose time is at most the limit. A step is one
// contact that is looked at.
pub(crate) fn expired<L: Ledger>(
    alloc: Global,
    nodes: &Vec<Node>,
    from: Place,
    count: usize,
    limit: &i64,
    steps: &mut Steps<L>,
) -> Result<Ids, NoMemory>
    requires { AreKnown (vec_ptr nodes.now) nodes.now.items count from }
    ensures ok { IfOk result (λ brokers. brokers ≡ expired_among (contacts_from (vec_ptr nodes.now) nodes.now.items count from) limit.now) }
    ensures bound { steps.new ≤ steps.old + length (expired_among (contacts_from (vec_ptr nodes.now) nodes.now.items count from) limit.now) + 1 }
    ensures counted { steps.old ≤ steps.new }
{
    let mut brokers = Ids::new(alloc);
    let mut place = from;
    for _ in 0..count {
        steps.tick();
        let node = nodes::read(nodes, place);
        if !is_old(&node, limit) {
            break;
        }
        brokers.push(broker_of(&node))?;
        place = node.after;
    }
    Ok(brokers)
}

// So many contacts, from the place on.
pub(crate) fn contacts(
    alloc: Global,
    nodes: &Vec<Node>,
    from: Place,
    count: usize,
) -> Result<Contacts, NoMemory>
    requires { AreKnown (vec_ptr nodes.now) nodes.now.items count from }
    ensures { IfOk result (λ contacts. contacts ≡ contacts_from (vec_ptr nodes.now) nodes.now.items count from) }
{
    let mut contacts = Vec::with_capacity(alloc, count)?;
    let mut place = from;
    for _ in 0..count {
        let node = nodes::read(nodes, place);
        contacts.push(nodes::contact_in(&node))?;
        place = node.after;
    }
    Ok(Contacts::from_vec(contacts))
}
