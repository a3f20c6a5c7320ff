//! Who is told of exchanges.

ghost use Rattle.std.specs.Prelude.{◌≡◌, [], ◌∷◌, List, Option, Some, None, OnOk, OnErr};
ghost use Rattle.kr_server.specs.Told.{TellsMore};

use crate::exchange::Exchange;
use kr_base::NoMemory;
use std::alloc::Global;

/// Who is told of the exchanges of a connection.
pub trait Transcript {
    ghost use Rattle.kr_server.specs.declared.exchange.Exchange.{Exchange};

    /// The exchanges so far, where the transcript tells them.
    ghost list: { Self → Option (List Exchange) };

    /// Takes one exchange more.
    fn add(&mut self, exchange: Exchange) -> Result<(), NoMemory>
        ensures ok { OnOk result (TellsMore (list self.old) (list self.new) (exchange ∷ [])) }
        ensures err { OnErr result (TellsMore (list self.old) (list self.new) []) };
}

/// Keeps the exchanges in memory.
#[derive(Drop)]
pub struct MemoryTranscript {
    // The exchanges, in order.
    exchanges: Vec<Exchange>,
}

impl MemoryTranscript {
    /// A transcript without exchanges.
    pub fn new(alloc: Global) -> MemoryTranscript
        ensures { ⟦<MemoryTranscript as Transcript>⟧.list result ≡ Some [] }
    {
        MemoryTranscript {
            exchanges: Vec::new(alloc),
        }
    }

    /// The exchanges so far, in order.
    pub fn exchanges(&self) -> &[Exchange]
        ensures { Some result.now ≡ ⟦<MemoryTranscript as Transcript>⟧.list self.now }
    {
        self.exchanges.as_slice()
    }
}

impl Transcript for MemoryTranscript {
    ghost use Rattle.std.specs.Prelude.{Some};

    ghost list = { λ t. Some t.exchanges.items };

    fn add(&mut self, exchange: Exchange) -> Result<(), NoMemory> {
        self.exchanges.push(exchange)?;
        Ok(())
    }
}

/// Keeps nothing, and tells nothing.
#[derive(Clone, Copy, Debug, Drop)]
pub struct NoTranscript;

impl Transcript for NoTranscript {
    ghost use Rattle.std.specs.Prelude.{None, IsOk};

    ghost list = { λ _. None };

    /// It answers Ok.
    fn add(&mut self, _exchange: Exchange) -> Result<(), NoMemory>
        ensures never { IsOk result }
    {
        Ok(())
    }
}
