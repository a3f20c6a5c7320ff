//! What a decision rested on besides the image, for clauses alone.

ghost use Rattle.std.specs.Prelude.{◌≡◌};

use kr_sessions::Sessions;
use std::marker::Model;
use std::snapshot::Snapshot;

/// What a decision rested on besides the image. A clause sees it as a `Basis`; a program has no bytes of it.
#[derive(Drop)]
pub struct PastBasis {
    time: Snapshot<i64>,
    led: Snapshot<i64>,
    sessions: Snapshot<Sessions>,
}

impl Model for PastBasis {
    ghost use Rattle.kr_defs.specs.declared.basis.Basis.{Basis};

    ghost Value = { Basis };

    ghost view = { λ b. record {
      time = b.time.value;
      led = b.led.value;
      contacts = b.sessions.value.heartbeats.contacts;
      stopping = b.sessions.value.heartbeats.stopping;
    } };
}

impl PastBasis {
    /// That of the time, of a leadership that began at the place, and of who is heard of. It copies nothing.
    pub fn of(time: &i64, led: &i64, sessions: &Sessions) -> PastBasis
        ensures { result ≡ record {
          time = time.now;
          led = led.now;
          contacts = sessions.now.heartbeats.contacts;
          stopping = sessions.now.heartbeats.stopping;
        } }
    {
        PastBasis {
            time: Snapshot::of(time),
            led: Snapshot::of(led),
            sessions: Snapshot::of(sessions),
        }
    }
}
