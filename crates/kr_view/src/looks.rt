//! What a look finds.

ghost use Rattle.std.specs.Prelude.{◌≡◌, IfOk};
ghost use Rattle.kr_view.specs.Looks.{looked_at, without_entry};

use kr_base::NoMemory;
use kr_calls::SeatEntry;

/// What a look for a seat's ticket finds.
#[derive(Drop)]
pub enum Look {
    /// What the seat was told last, which has the ticket.
    Found { entry: SeatEntry },
    /// No such entry, and a stop: the number of the first one.
    Stopped { number: u64 },
    /// Neither so far.
    NotYet,
}

fn without_entry(stop: Option<u64>) -> Look
    ensures { result ≡ without_entry stop }
{
    match stop {
        Some(number) => Look::Stopped { number },
        None => Look::NotYet,
    }
}

/// What the last entry of a seat and the first stop say of the ticket. It takes no memory, and is refused only where as many
/// hold the answer as can be counted.
pub(crate) fn look_at(
    last: &Option<SeatEntry>,
    stop: Option<u64>,
    ticket: u64,
) -> Result<Look, NoMemory>
    ensures { IfOk result (λ look. look ≡ looked_at last.now stop ticket) }
{
    let Some(entry) = last else {
        return Ok(without_entry(stop));
    };
    if entry.ticket() == ticket {
        let entry = entry.again()?;
        return Ok(Look::Found { entry });
    }
    Ok(without_entry(stop))
}
