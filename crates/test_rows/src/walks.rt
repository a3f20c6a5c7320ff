//! Rows on moves that are made with several controllers over one list.

ghost use Rattle.std.specs.Prelude.{IfOk};
ghost use Rattle.kr_nodes.specs.Standing.{IsReadyCluster};

use crate::moves::{Asked, asked_of, push_outcome, step};
use crate::tellings::add_told;
use kr_drive::{drive, summary_text};
use kr_nodes::Cluster;
use kr_workload::options;
use std::alloc::{AllocError, Global};
use testlib_words::{Fields, RowFault};

// A row has at most so many moves.
const MOST_MOVES: u32 = 2_000;

/// The number of nodes, the number of which their options are, and moves, with a slash before each: what comes of each, with
/// slashes between them.
pub(crate) fn moves_row(alloc: Global, fields: &mut Fields) -> Result<String, RowFault> {
    let nodes: u32 = fields.number()?;
    let salt: u32 = fields.number()?;
    let mut text = String::new(alloc);
    let mut cluster = cluster_of(alloc, nodes, salt)?;
    add_moves(alloc, &mut cluster, fields, &mut text)?;
    Ok(text)
}

fn add_moves(
    alloc: Global,
    cluster: &mut Cluster,
    fields: &mut Fields,
    text: &mut String,
) -> Result<(), RowFault>
    requires { IsReadyCluster cluster.old }
{
    for _ in 0..MOST_MOVES {
        if fields.is_empty() {
            break;
        }
        add_asked(alloc, cluster, fields, text)?;
    }
    Ok(())
}

// A slash, and a move.
fn add_asked(
    alloc: Global,
    cluster: &mut Cluster,
    fields: &mut Fields,
    text: &mut String,
) -> Result<(), RowFault>
    requires { IsReadyCluster cluster.old }
    ensures { IsReadyCluster cluster.new }
{
    fields.bar()?;
    if !text.is_empty() {
        text.push_str(" / ")?;
    }
    let asked = asked_of(fields)?;
    add_move(alloc, cluster, asked, text)
}

fn cluster_of(alloc: Global, nodes: u32, salt: u32) -> Result<Cluster, RowFault>
    ensures { IfOk result (λ cluster. IsReadyCluster cluster) }
{
    if nodes < 1 || nodes > 16 {
        return Err(RowFault::Fields);
    }
    let options = options(alloc, salt)?;
    Ok(Cluster::new(alloc, options, nodes)?)
}

// What comes of a move, the list's length, the nodes' ends with commas between them, and what was told then.
fn add_move(
    alloc: Global,
    cluster: &mut Cluster,
    asked: Asked,
    text: &mut String,
) -> Result<(), RowFault>
    requires { IsReadyCluster cluster.old }
    ensures { IsReadyCluster cluster.new }
{
    let before = cluster.told().len();
    let outcome = step(alloc, cluster, asked)?;
    push_outcome(alloc, outcome, text)?;
    add_state(alloc, cluster, text)?;
    match cluster.told().get(before..) {
        Some(told) => add_told(alloc, told, asked.items(), text),
        None => Ok(()),
    }
}

fn add_state(alloc: Global, cluster: &Cluster, text: &mut String) -> Result<(), AllocError> {
    let length = cluster.length();
    let length = format!(in alloc; " {length} ")?;
    text.push_str(&length)?;
    for node in 0..16 {
        add_end(alloc, cluster, node, text)?;
    }
    Ok(())
}

fn add_end(
    alloc: Global,
    cluster: &Cluster,
    node: u32,
    text: &mut String,
) -> Result<(), AllocError> {
    let Some(end) = cluster.end(node) else {
        return Ok(());
    };
    if node > 0 {
        text.push_str(",")?;
    }
    let digits = format!(in alloc; "{end}")?;
    text.push_str(&digits)
}

/// A number and how many rounds: the lines that come of the moves that are drawn from it, with `; ` between them.
pub(crate) fn nodes_row(alloc: Global, fields: &mut Fields) -> Result<String, RowFault> {
    let seed: u32 = fields.number()?;
    let rounds: u32 = fields.number()?;
    if rounds > 1_000_000_000 {
        return Err(RowFault::Fields);
    }
    let summary = drive(alloc, seed, rounds)?;
    let lines = summary_text(alloc, &summary)?;
    let mut text = String::new(alloc);
    for line in lines.as_str().lines() {
        if !text.is_empty() {
            text.push_str("; ")?;
        }
        text.push_str(line)?;
    }
    Ok(text)
}
