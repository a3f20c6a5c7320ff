//! When a quorum of this process alone commits.

ghost use Rattle.std.specs.Prelude.{◌≡◌};
ghost use Rattle.kr_host.specs.inner.Commits.{commits_are_due, turns_behind};

/// How many turns with a job a commit waits at most.
pub(crate) const MOST_TURNS: u32 = 64;

/// While jobs come in a commit waits, since one covers all that was appended meanwhile: so what is committed is shown to
/// clients once for several writes.
#[derive(Drop)]
pub(crate) struct Commits {
    // How many turns with a job there were since it was last time.
    turns: u32,
}

impl Commits {
    pub(crate) fn new() -> Commits
        ensures { result.turns ≡ 0 }
    {
        Commits { turns: 0 }
    }

    /// Behind a turn, with a job or without: it is time to commit. It is where there was none, and behind 64 with one at the
    /// latest.
    pub(crate) fn are_due(&mut self, did: bool) -> bool
        ensures due { result ≡ commits_are_due self.old.turns did }
        ensures turns { self.new.turns ≡ turns_behind self.old.turns did }
    {
        if did && self.turns < MOST_TURNS {
            self.turns += 1;
            return false;
        }
        self.turns = 0;
        true
    }
}
