//! The nodes of a block and their links. A step is one node that is read or written.

ghost use Rattle.std.specs.Prelude.{◌≡◌, ◌+◌, ◌<◌, ◌∷◌, [], vec_len, vec_capacity};
ghost use Rattle.std.specs.Vec.{vec_ptr};
ghost use Rattle.kr_contact.specs.Nodes.{IsKnown, LiesAt, closing_node, contact_in, index_of, node_at, node_of, with_after, with_before, with_news, unlinked, linked, moved_last, added_last, last_without};

use crate::places;
use kr_base::Steps;
use kr_defs::Contact;
use std::marker::{Send, Sync};
use std::sync::ledger::Ledger;

/// Where a node lies.
#[derive(Clone, Copy)]
pub(crate) struct Place {
    pub(crate) at: *mut Node,
}

unsafe impl Send for Place {}

unsafe impl Sync for Place {}

/// A contact between the one before it and the one after.
#[derive(Clone, Copy)]
pub(crate) struct Node {
    pub(crate) broker: i32,
    pub(crate) time: i64,
    pub(crate) offset: i64,
    pub(crate) before: Place,
    pub(crate) after: Place,
}

pub(crate) fn read(nodes: &Vec<Node>, place: Place) -> Node
    requires { IsKnown (vec_ptr nodes.now) (vec_len nodes.now) place }
    ensures { result ≡ node_at nodes.now.items (index_of (vec_ptr nodes.now) place) }
{
    *places::at(nodes, place.at)
}

// Puts the node that closes a ring into an empty block.
pub(crate) fn close(nodes: &mut Vec<Node>) -> Place
    requires empty { vec_len nodes.old ≡ 0 }
    requires room { 0 < vec_capacity nodes.old }
    ensures here { result.at ≡ vec_ptr nodes.new }
    ensures items { nodes.new.items ≡ closing_node result ∷ [] }
    ensures len { vec_len nodes.new ≡ 1 }
    ensures capacity { vec_capacity nodes.new ≡ vec_capacity nodes.old }
{
    let first = Place {
        at: nodes.as_mut_ptr(),
    };
    nodes.push_reserved(Node {
        broker: 0,
        time: 0,
        offset: 0,
        before: first,
        after: first,
    });
    first
}

pub(crate) fn contact_in(node: &Node) -> Contact
    ensures { result ≡ contact_in node.now }
{
    Contact {
        broker: node.broker,
        time: node.time,
        offset: node.offset,
    }
}

// Reads a node in a step.
pub(crate) fn look<L: Ledger>(nodes: &Vec<Node>, place: Place, steps: &mut Steps<L>) -> Node
    requires { IsKnown (vec_ptr nodes.now) (vec_len nodes.now) place }
    ensures node { result ≡ node_at nodes.now.items (index_of (vec_ptr nodes.now) place) }
    ensures counted { steps.new ≡ steps.old + 1 }
{
    steps.tick();
    read(nodes, place)
}

pub(crate) fn set_after<L: Ledger>(
    nodes: &mut Vec<Node>,
    place: Place,
    after: Place,
    steps: &mut Steps<L>,
)
    requires { IsKnown (vec_ptr nodes.old) (vec_len nodes.old) place }
    ensures items { nodes.new.items ≡
        with_after nodes.old.items (index_of (vec_ptr nodes.old) place) after }
    ensures len { vec_len nodes.new ≡ vec_len nodes.old }
    ensures capacity { vec_capacity nodes.new ≡ vec_capacity nodes.old }
    ensures in_place { vec_ptr nodes.new ≡ vec_ptr nodes.old }
    ensures counted { steps.new ≡ steps.old + 1 }
{
    steps.tick();
    places::at_mut(nodes, place.at).after = after;
}

pub(crate) fn set_before<L: Ledger>(
    nodes: &mut Vec<Node>,
    place: Place,
    before: Place,
    steps: &mut Steps<L>,
)
    requires { IsKnown (vec_ptr nodes.old) (vec_len nodes.old) place }
    ensures items { nodes.new.items ≡
        with_before nodes.old.items (index_of (vec_ptr nodes.old) place) before }
    ensures len { vec_len nodes.new ≡ vec_len nodes.old }
    ensures capacity { vec_capacity nodes.new ≡ vec_capacity nodes.old }
    ensures in_place { vec_ptr nodes.new ≡ vec_ptr nodes.old }
    ensures counted { steps.new ≡ steps.old + 1 }
{
    steps.tick();
    places::at_mut(nodes, place.at).before = before;
}

pub(crate) fn set_news<L: Ledger>(
    nodes: &mut Vec<Node>,
    place: Place,
    contact: &Contact,
    steps: &mut Steps<L>,
)
    requires { IsKnown (vec_ptr nodes.old) (vec_len nodes.old) place }
    ensures items { nodes.new.items ≡
        with_news nodes.old.items (index_of (vec_ptr nodes.old) place) contact.now }
    ensures len { vec_len nodes.new ≡ vec_len nodes.old }
    ensures capacity { vec_capacity nodes.new ≡ vec_capacity nodes.old }
    ensures in_place { vec_ptr nodes.new ≡ vec_ptr nodes.old }
    ensures counted { steps.new ≡ steps.old + 1 }
{
    steps.tick();
    let node = places::at_mut(nodes, place.at);
    node.time = contact.time;
    node.offset = contact.offset;
}

#[tactic(auto, unfolding(crate::specs::Nodes::unlinked))]
// Links the nodes before and after the node to one another.
pub(crate) fn unlink<L: Ledger>(nodes: &mut Vec<Node>, place: Place, steps: &mut Steps<L>)
    requires node { IsKnown (vec_ptr nodes.old) (vec_len nodes.old) place }
    requires before { IsKnown (vec_ptr nodes.old) (vec_len nodes.old)
        (node_at nodes.old.items (index_of (vec_ptr nodes.old) place)).before }
    requires after { IsKnown (vec_ptr nodes.old) (vec_len nodes.old)
        (node_at nodes.old.items (index_of (vec_ptr nodes.old) place)).after }
    ensures items { nodes.new.items ≡
        unlinked (vec_ptr nodes.old) nodes.old.items (index_of (vec_ptr nodes.old) place) }
    ensures len { vec_len nodes.new ≡ vec_len nodes.old }
    ensures capacity { vec_capacity nodes.new ≡ vec_capacity nodes.old }
    ensures in_place { vec_ptr nodes.new ≡ vec_ptr nodes.old }
    ensures counted { steps.new ≡ steps.old + 3 }
{
    let node = look(nodes, place, steps);
    set_after(nodes, node.before, node.after, steps);
    set_before(nodes, node.after, node.before, steps);
}

#[tactic(auto, unfolding(crate::specs::Nodes::linked))]
// Links the node in before the other one.
pub(crate) fn link<L: Ledger>(
    nodes: &mut Vec<Node>,
    place: Place,
    next: Place,
    steps: &mut Steps<L>,
)
    requires node { IsKnown (vec_ptr nodes.old) (vec_len nodes.old) place }
    requires next { IsKnown (vec_ptr nodes.old) (vec_len nodes.old) next }
    requires before { IsKnown (vec_ptr nodes.old) (vec_len nodes.old)
        (node_at nodes.old.items (index_of (vec_ptr nodes.old) next)).before }
    ensures items { nodes.new.items ≡ linked (vec_ptr nodes.old) nodes.old.items place next }
    ensures len { vec_len nodes.new ≡ vec_len nodes.old }
    ensures capacity { vec_capacity nodes.new ≡ vec_capacity nodes.old }
    ensures in_place { vec_ptr nodes.new ≡ vec_ptr nodes.old }
    ensures counted { steps.new ≡ steps.old + 5 }
{
    let before = look(nodes, next, steps).before;
    set_before(nodes, place, before, steps);
    set_after(nodes, place, next, steps);
    set_after(nodes, before, place, steps);
    set_before(nodes, next, place, steps);
}

#[tactic(auto, unfolding(crate::specs::Nodes::moved_last))]
// Makes the node the last of the ring that the first node closes, with the contact's time and offset.
pub(crate) fn move_last<L: Ledger>(
    nodes: &mut Vec<Node>,
    place: Place,
    first: Place,
    contact: &Contact,
    steps: &mut Steps<L>,
)
    requires node { IsKnown (vec_ptr nodes.old) (vec_len nodes.old) place }
    requires first { IsKnown (vec_ptr nodes.old) (vec_len nodes.old) first }
    requires before { IsKnown (vec_ptr nodes.old) (vec_len nodes.old)
        (node_at nodes.old.items (index_of (vec_ptr nodes.old) place)).before }
    requires after { IsKnown (vec_ptr nodes.old) (vec_len nodes.old)
        (node_at nodes.old.items (index_of (vec_ptr nodes.old) place)).after }
    requires last { IsKnown (vec_ptr nodes.old) (vec_len nodes.old)
        (last_without (vec_ptr nodes.old) nodes.old.items place first contact.now) }
    ensures items { nodes.new.items ≡
        moved_last (vec_ptr nodes.old) nodes.old.items place first contact.now }
    ensures len { vec_len nodes.new ≡ vec_len nodes.old }
    ensures capacity { vec_capacity nodes.new ≡ vec_capacity nodes.old }
    ensures in_place { vec_ptr nodes.new ≡ vec_ptr nodes.old }
    ensures counted { steps.new ≡ steps.old + 9 }
{
    unlink(nodes, place, steps);
    set_news(nodes, place, contact, steps);
    link(nodes, place, first, steps);
}

// The contact's node before it is linked in.
fn new_node(contact: &Contact, next: Place) -> Node
    ensures { result ≡ node_of contact.now next }
{
    Node {
        broker: contact.broker,
        time: contact.time,
        offset: contact.offset,
        before: next,
        after: next,
    }
}

#[tactic(auto, unfolding(crate::specs::Nodes::added_last))]
// Puts a new node at the end of the block and of the ring.
pub(crate) fn add_last<L: Ledger>(
    nodes: &mut Vec<Node>,
    first: Place,
    contact: &Contact,
    steps: &mut Steps<L>,
) -> Place
    requires room { vec_len nodes.old < vec_capacity nodes.old }
    requires here { first.at ≡ vec_ptr nodes.old }
    requires first { IsKnown (vec_ptr nodes.old) (vec_len nodes.old) first }
    requires last { IsKnown (vec_ptr nodes.old) (vec_len nodes.old)
        (node_at nodes.old.items (index_of (vec_ptr nodes.old) first)).before }
    ensures items { nodes.new.items ≡
        added_last (vec_ptr nodes.old) nodes.old.items result first contact.now }
    ensures place { LiesAt (vec_ptr nodes.old) (vec_len nodes.new) result (vec_len nodes.old) }
    ensures len { vec_len nodes.new ≡ vec_len nodes.old + 1 }
    ensures capacity { vec_capacity nodes.new ≡ vec_capacity nodes.old }
    ensures in_place { vec_ptr nodes.new ≡ vec_ptr nodes.old }
    ensures counted { steps.new ≡ steps.old + 6 }
{
    let index = nodes.len();
    steps.tick();
    nodes.push_reserved(new_node(contact, first));
    let place = Place {
        at: places::place(nodes, first.at, index),
    };
    link(nodes, place, first, steps);
    place
}
