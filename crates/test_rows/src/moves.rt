//! A move, as words.

ghost use Rattle.std.specs.Prelude.{◌≡◌, IfOk, false};
ghost use Rattle.kr_calls.specs.Decide.{is_read};
ghost use Rattle.kr_nodes.specs.Standing.{IsReadyCluster, IsWriteMove};

use kr_calls::{Ask, Call};
use kr_nodes::{Cluster, Move, MoveFault};
use kr_req::decode;
use std::alloc::{AllocError, Global};
use testlib_words::{Fields, RowFault, bytes_of};

/// A move of a node, as a row asks for it.
#[derive(Clone, Copy)]
pub(crate) struct Asked<'a> {
    node: u32,
    turn: Turn<'a>,
}

/// What is done with the node.
#[derive(Clone, Copy)]
enum Turn<'a> {
    Feed,
    Elect {
        epoch: i32,
        now: i64,
    },
    Ask {
        client: u32,
        now: i64,
        message: &'a str,
    },
    Tick {
        now: i64,
    },
    Settle,
    Tell {
        items: &'a str,
    },
    Depose,
    Copy {
        to: u32,
    },
}

/// `feed N`, `elect N EPOCH NOW`, `ask N CLIENT NOW HEX` with a message that is a write, `tick N NOW`, `settle N`, `tell N ITEMS`,
/// `depose N` or `copy FROM TO`.
pub(crate) fn asked_of<'a>(fields: &mut Fields<'a>) -> Result<Asked<'a>, RowFault> {
    let word = fields.word()?;
    let node = fields.number()?;
    let turn = turn_of(word, fields)?;
    Ok(Asked { node, turn })
}

fn turn_of<'a>(word: &str, fields: &mut Fields<'a>) -> Result<Turn<'a>, RowFault> {
    match word {
        "feed" => Ok(Turn::Feed),
        "elect" => election_of(fields),
        "ask" => ask_of(fields),
        "tick" => Ok(Turn::Tick {
            now: fields.number()?,
        }),
        "settle" => Ok(Turn::Settle),
        "tell" => Ok(Turn::Tell {
            items: fields.word()?,
        }),
        "depose" => Ok(Turn::Depose),
        "copy" => Ok(Turn::Copy {
            to: fields.number()?,
        }),
        _ => Err(RowFault::Fields),
    }
}

fn election_of<'a>(fields: &mut Fields<'a>) -> Result<Turn<'a>, RowFault> {
    Ok(Turn::Elect {
        epoch: fields.number()?,
        now: fields.number()?,
    })
}

fn ask_of<'a>(fields: &mut Fields<'a>) -> Result<Turn<'a>, RowFault> {
    Ok(Turn::Ask {
        client: fields.number()?,
        now: fields.number()?,
        message: fields.word()?,
    })
}

impl<'a> Asked<'a> {
    /// The items that it is to tell.
    pub(crate) fn items(&self) -> &'a str {
        match self.turn {
            Turn::Tell { items } => items,
            _ => "-",
        }
    }
}

/// Makes the move: what comes of it.
pub(crate) fn step(
    alloc: Global,
    cluster: &mut Cluster,
    asked: Asked,
) -> Result<Result<(), MoveFault>, RowFault>
    requires { IsReadyCluster cluster.old }
    ensures { IsReadyCluster cluster.new }
{
    let turn = move_of(alloc, asked)?;
    Ok(cluster.step(turn))
}

fn move_of(alloc: Global, asked: Asked) -> Result<Move, RowFault>
    ensures { IfOk result (λ turn. IsWriteMove turn) }
{
    let Asked { node, turn } = asked;
    match turn {
        Turn::Feed => Ok(Move::Feed { node }),
        Turn::Elect { epoch, now } => Ok(Move::Elect { node, epoch, now }),
        Turn::Ask {
            client,
            now,
            message,
        } => Ok(Move::Ask {
            node,
            client,
            now,
            call: write_of(alloc, message)?,
        }),
        Turn::Tick { now } => Ok(Move::Tick { node, now }),
        Turn::Settle => Ok(Move::Settle { node }),
        Turn::Tell { .. } => Ok(Move::Tell { node }),
        Turn::Depose => Ok(Move::Depose { node }),
        Turn::Copy { to } => Ok(Move::Copy { from: node, to }),
    }
}

fn write_of(alloc: Global, message: &str) -> Result<Call, RowFault>
    ensures { IfOk result (λ call. is_read call.request ≡ false) }
{
    let message = bytes_of(alloc, message)?;
    match decode(alloc, &message)? {
        Ask::Call(call) => if_write(call),
        Ask::Bare { .. } => Err(RowFault::Fields),
    }
}

fn if_write(call: Call) -> Result<Call, RowFault>
    ensures { IfOk result (λ call. is_read call.request ≡ false) }
{
    if call.request.is_read() {
        return Err(RowFault::Fields);
    }
    Ok(call)
}

/// Why a move was refused: its name, and its numbers.
#[derive(Clone, Copy)]
struct Refusal {
    name: &'static str,
    number: i64,
    other: Option<i64>,
}

// None where memory was wanted.
fn refusal_of(fault: MoveFault) -> Option<Refusal> {
    let (name, number, other) = match fault {
        MoveFault::NoNode { node, count } => ("NoNode", i64::from(node), Some(i64::from(count))),
        MoveFault::NotStandby { node } => ("NotStandby", i64::from(node), None),
        MoveFault::NotLeading { node } => ("NotLeading", i64::from(node), None),
        MoveFault::OldEpoch { asked, greatest } => {
            ("OldEpoch", i64::from(asked), Some(i64::from(greatest)))
        }
        MoveFault::Behind { end, length } => ("Behind", end, Some(length)),
        MoveFault::NotLatest { epoch, latest } => {
            ("NotLatest", i64::from(epoch), Some(i64::from(latest)))
        }
        MoveFault::NothingNew { at } => ("NothingNew", at, None),
        MoveFault::OlderImage { offset, end } => ("OlderImage", offset, Some(end)),
        MoveFault::NoMemory => return None,
    };
    Some(Refusal {
        name,
        number,
        other,
    })
}

/// `ok`, or the refusal with its numbers.
pub(crate) fn push_outcome(
    alloc: Global,
    outcome: Result<(), MoveFault>,
    text: &mut String,
) -> Result<(), AllocError> {
    let Err(fault) = outcome else {
        return text.push_str("ok");
    };
    let Some(refusal) = refusal_of(fault) else {
        return Err(AllocError);
    };
    text.push_str(refusal.name)?;
    push_number(alloc, refusal.number, text)?;
    match refusal.other {
        Some(number) => push_number(alloc, number, text),
        None => Ok(()),
    }
}

/// A space, and the number.
pub(crate) fn push_number(alloc: Global, number: i64, text: &mut String) -> Result<(), AllocError> {
    let digits = format!(in alloc; " {number}")?;
    text.push_str(&digits)
}
