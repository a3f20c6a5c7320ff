//! Several controllers over one committed list.

ghost use Rattle.std.specs.Prelude.{◌≡◌, [], ◌++◌, ◌∷◌, ◌<◌, ◌≤◌, ℕ, IfOk, IsErrOf, IsTrue, List, MatchOption, MatchResult, None, Some, false, length, map, pos, true};
ghost use Rattle.std.specs.List.{slice_get};
ghost use Rattle.std.specs.Option.{option_map};
ghost use Rattle.kr_defs.specs.OpenOptions.{are_options};
ghost use Rattle.kr_defs.specs.declared.options.Options.{Options as AnyOptions};
ghost use Rattle.law_nodes.specs.declared.moves.Move.{Move as AnyMove};
ghost use Rattle.law_nodes.specs.declared.moves.Move.TheVariants as moves;
ghost use Rattle.law_nodes.specs.declared.moves.MoveFault.TheVariants as faults;
ghost use Rattle.law_nodes.specs.Moves.{committed_end, length_of, run};
ghost use Rattle.kr_nodes.specs.inner.Acting as acting;
ghost use Rattle.kr_nodes.specs.inner.Acting.{AreIdle, IsOfOne, MakesSome};
ghost use Rattle.kr_nodes.specs.Standing as standing;
ghost use Rattle.kr_nodes.specs.Standing.{AnswersMove, ClusterAgrees, IsReadyCluster, IsWriteMove, StandsForMoves, told_as};

use crate::ToldReply;
use crate::copying::{check_copy, image_at, load_at};
use crate::moving::act_at;
use crate::node::Node;
use crate::shared::Shared;
use kr_base::{NoMemory, Steps};
use kr_defs::{Copied, Options};
use law_nodes::{Move, MoveFault};
use std::alloc::Global;
use std::marker::Brand;
use std::sync::ledger::{Blank, Ledger};

/// Several controllers, numbered from 0, over one committed list of batches, which begins empty.
pub struct Cluster {
    nodes: Vec<Node>,
    count: u32,
    shared: Shared,
    // Memory was wanted in the middle of a move.
    spent: bool,
}

// By hand, as that of a node.
impl Drop for Cluster {
    fn drop(self) {
        let Cluster {
            nodes,
            count,
            shared,
            spent,
        } = self;
    }
}

// The options once more.
fn options_again(alloc: Global, options: &Options) -> Result<Options, NoMemory>
    ensures { IfOk result (λ copy. copy ≡ options.now) }
{
    Ok(Options {
        node: options.node,
        salt: options.salt,
        session_ms: options.session_ms,
        partitions: options.partitions,
        factor: options.factor,
        minimum: options.minimum,
        cluster: options.cluster.copied(alloc)?,
    })
}

#[tactic(auto, using(crate::proofs::FirstNodes::first_more))]
fn first_nodes(alloc: Global, options: &Options, count: u32) -> Result<Vec<Node>, NoMemory>
    requires { IsTrue (are_options options.now) }
    ensures { IfOk result (λ nodes. standing.AreFirst options.now count nodes.items) }
{
    let mut nodes = Vec::new(alloc);
    for _ in 0..count {
        let own = options_again(alloc, options)?;
        nodes.push(Node::new(alloc, own)?)?;
    }
    Ok(nodes)
}

impl Cluster {
    /// So many nodes, of each of which these are the options, to which nothing has happened.
    pub fn new(alloc: Global, options: Options, nodes: u32) -> Result<Cluster, NoMemory>
        requires some { 1 ≤ nodes }
        requires few { nodes ≤ 16 }
        requires options { IsTrue (are_options options) }
        ensures stands { IfOk result (λ cluster. StandsForMoves options nodes [] cluster) }
        ensures ready { IfOk result (λ cluster. IsReadyCluster cluster) }
    {
        Ok(Cluster {
            nodes: first_nodes(alloc, &options, nodes)?,
            count: nodes,
            shared: Shared {
                alloc,
                list: Vec::new(alloc),
                length: 0,
                elected: -1,
                told: Vec::new(alloc),
            },
            spent: false,
        })
    }

    /// One move. It is refused by the first reason of the table, and then all is as before; or memory was wanted, and then
    /// nothing more is done with the cluster.
    pub fn step(&mut self, turn: Move) -> Result<(), MoveFault>
        requires ready { IsReadyCluster self.old }
        requires write { IsWriteMove turn }
        ensures moved { (options : AnyOptions) (nodes : ℕ) (past : List AnyMove) →
            StandsForMoves options nodes past self.old →
            AnswersMove options nodes past turn self.new result }
        // Two nodes with equal ends have equal images, and each success that a leader told stands at its place in the
        // one list, of which each node's log is a part.
        ensures agrees { self.new.spent ≡ false → ClusterAgrees self.new }
        ensures ready { IsReadyCluster self.new }
        ensures spent { self.new.spent ≡ standing.is_memory result }
        ensures over { self.old.spent ≡ true → IsErrOf result faults.NoMemory }
    {
        if self.spent {
            return Err(MoveFault::NoMemory);
        }
        let result = self.make::<Brand>(turn, Blank::new(1));
        self.spent = is_memory(&result);
        result
    }

    fn make<L: Ledger>(&mut self, turn: Move, blank: Blank) -> Result<(), MoveFault>
        requires idle { AreIdle self.old.nodes.items }
        requires write { IsWriteMove turn }
        requires name { blank.name ≡ L.name }
        requires parts { blank.parts ≡ L.parts }
        requires some { 0 < L.parts }
        ensures { MakesSome self.old self.new turn result }
    {
        let mut steps: Steps<L> = Steps::new(blank);
        match turn {
            Move::Copy { from, to } => self.copy(from, to, &mut steps),
            turn => self.make_one(turn, &mut steps),
        }
    }

    fn check_node(&self, node: u32) -> Result<(), MoveFault>
        ensures { MatchResult result (λ _. node < length self.now.nodes.items)
            (λ fault. (length self.now.nodes.items ≤ node)
            × (fault ≡ faults.NoNode node self.now.count)) }
    {
        if (node as usize) < self.nodes.len() {
            return Ok(());
        }
        Err(MoveFault::NoNode {
            node,
            count: self.count,
        })
    }

    fn make_one<L: Ledger>(&mut self, turn: Move, steps: &mut Steps<L>) -> Result<(), MoveFault>
        requires idle { AreIdle self.old.nodes.items }
        requires write { IsWriteMove turn }
        requires one { IsOfOne turn }
        ensures { MakesSome self.old self.new turn result }
    {
        let node = moved_node(&turn);
        self.check_node(node)?;
        act_at(&mut self.nodes, node, turn, &mut self.shared, steps)
    }

    fn copy<L: Ledger>(&mut self, from: u32, to: u32, steps: &mut Steps<L>) -> Result<(), MoveFault>
        requires idle { AreIdle self.old.nodes.items }
        ensures { MakesSome self.old self.new (moves.Copy from to) result }
    {
        self.check_node(from)?;
        self.check_node(to)?;
        let (end, fed) = check_copy(&self.nodes, from, to)?;
        let event = image_at(&mut self.nodes, from, &mut self.shared, steps)?;
        load_at(
            &mut self.nodes,
            to,
            &event,
            end,
            fed,
            &mut self.shared.told,
            steps,
        )?;
        Ok(())
    }

    /// How many items the list has.
    pub fn length(&self) -> i64
        ensures { (options : AnyOptions) (nodes : ℕ) (past : List AnyMove) →
            StandsForMoves options nodes past self.now →
            result ≡ pos (length_of (run options nodes past)) }
    {
        self.shared.length
    }

    /// The greatest epoch in which a node was elected, at first -1.
    pub fn greatest_epoch(&self) -> i32
        ensures { (options : AnyOptions) (nodes : ℕ) (past : List AnyMove) →
            StandsForMoves options nodes past self.now → result ≡ (run options nodes past).elected }
    {
        self.shared.elected
    }

    /// A node's committed end, none where there is no such node.
    pub fn end(&self, node: u32) -> Option<i64>
        ensures { (options : AnyOptions) (nodes : ℕ) (past : List AnyMove) →
            StandsForMoves options nodes past self.now →
            result ≡ option_map (λ n. pos (committed_end n))
            (slice_get (run options nodes past).nodes node) }
    {
        match node_at(&self.nodes, node as usize) {
            Some(node) => Some(node.engine.committed()),
            None => None,
        }
    }

    /// What clients were told, in order.
    pub fn told(&self) -> &[ToldReply]
        ensures { (options : AnyOptions) (nodes : ℕ) (past : List AnyMove) →
            StandsForMoves options nodes past self.now →
            result.now ≡ map told_as (run options nodes past).told }
    {
        self.shared.told.as_slice()
    }
}

// The node of a number.
fn node_at(nodes: &[Node], number: usize) -> Option<&Node>
    ensures { MatchOption result (slice_get nodes.now number ≡ None)
        (λ node. slice_get nodes.now number ≡ Some node.now) }
{
    match nodes.get(number) {
        Some(node) => Some(node),
        None => None,
    }
}

fn is_memory(answer: &Result<(), MoveFault>) -> bool
    ensures { result ≡ standing.is_memory answer.now }
{
    matches!(answer, Err(MoveFault::NoMemory))
}

// The node of a move of one node.
fn moved_node(turn: &Move) -> u32
    requires { IsOfOne turn.now }
    ensures { result ≡ acting.moved_node turn.now }
{
    match turn {
        Move::Feed { node }
        | Move::Elect { node, .. }
        | Move::Ask { node, .. }
        | Move::Tick { node, .. }
        | Move::Settle { node }
        | Move::Tell { node }
        | Move::Depose { node } => *node,
        Move::Copy { from, .. } => *from,
    }
}
