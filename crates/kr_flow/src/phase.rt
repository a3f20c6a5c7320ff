//! What is waited for on a connection, and how long.

ghost use Rattle.std.specs.Prelude.{◌≡◌, None};
ghost use Rattle.kr_flow.specs.declared.phase.Phase.TheVariants as phases;
ghost use Rattle.kr_flow.specs.Phases as rules;

/// For how many seconds a connection may stay without a message: Kafka's connections.max.idle.ms.
pub const IDLE_SECONDS: u64 = 600;

/// For how many seconds a message may stay unfinished.
pub const MESSAGE_SECONDS: u64 = 30;

/// For how many seconds a reply may wait to be taken.
pub const REPLY_SECONDS: u64 = 30;

/// What is waited for on a connection.
#[derive(Clone, Copy, Debug, Drop, PartialEq, Eq)]
pub enum Phase {
    /// The next message.
    Idle,
    /// The rest of a message.
    Message,
    /// The answer, by the controller.
    Answer,
    /// That the client takes the reply.
    Reply,
}

impl Phase {
    /// For how many seconds it may last; none: as long as it takes.
    pub fn limit(self) -> Option<u64>
        ensures { result ≡ rules.seconds_of self }
    {
        match self {
            Phase::Idle => Some(IDLE_SECONDS),
            Phase::Message => Some(MESSAGE_SECONDS),
            Phase::Answer => None,
            Phase::Reply => Some(REPLY_SECONDS),
        }
    }

    fn is_same(self, other: Phase) -> bool
        ensures { result ≡ rules.is_same self other }
    {
        match (self, other) {
            (Phase::Idle, Phase::Idle) => true,
            (Phase::Message, Phase::Message) => true,
            (Phase::Answer, Phase::Answer) => true,
            (Phase::Reply, Phase::Reply) => true,
            _ => false,
        }
    }
}

/// What is waited for on a connection, and since when.
#[derive(Clone, Copy, Debug, Drop, PartialEq, Eq)]
pub struct Watched {
    /// What is waited for.
    pub phase: Phase,
    /// The number of the second at which it was first seen so; none where nobody has looked since it began.
    pub since: Option<u64>,
}

impl Watched {
    /// A connection on which nothing came yet.
    pub fn new() -> Watched
        ensures { result ≡ record { phase = phases.Idle; since = None } }
    {
        Watched {
            phase: Phase::Idle,
            since: None,
        }
    }

    /// From now on this is waited for. Where it was before, nothing changes.
    pub fn enter(&mut self, phase: Phase)
        ensures { self.new ≡ rules.entered self.old phase }
    {
        if !self.phase.is_same(phase) {
            self.phase = phase;
            self.since = None;
        }
    }

    /// Looks at the connection at the second `now`: whether what is waited for has lasted as long as it may since it was first
    /// seen.
    pub fn is_over(&mut self, now: u64) -> bool
        ensures over { result ≡ rules.has_lasted self.old now }
        ensures seen { self.new ≡ rules.watched_at self.old now }
    {
        let since = match self.since {
            Some(since) => since,
            None => {
                self.since = Some(now);
                now
            }
        };
        match self.phase.limit() {
            Some(limit) => now.saturating_sub(since) >= limit,
            None => false,
        }
    }
}
