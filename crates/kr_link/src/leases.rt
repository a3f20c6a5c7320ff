//! The lease of a leadership that is held, by the link's own clock.

ghost use Rattle.std.specs.Prelude.{◌≡◌, ◌&&◌, false, if◌then◌else◌};
ghost use Rattle.kr_link.specs.Clocks.{granted, is_renewal_due, may_be_over, tried_at};

/// The lease of a leadership that is held. Times are milliseconds of any clock that doesn't go back.
#[derive(Clone, Copy, Debug, Drop, PartialEq, Eq)]
pub struct Lease {
    /// For how many milliseconds it is granted.
    pub term: u64,
    /// When what was granted last was asked for, in milliseconds.
    pub asked: u64,
    /// When it was last asked for, granted or not, in milliseconds.
    pub tried: u64,
    /// A renewal is under way.
    pub is_renewing: bool,
}

impl Lease {
    /// A lease that was granted, and was asked for at this time.
    pub fn new(term: u64, asked: u64) -> Lease
        ensures { result
            ≡ record { term = term; asked = asked; tried = asked; is_renewing = false } }
    {
        Lease {
            term,
            asked,
            tried: asked,
            is_renewing: false,
        }
    }

    /// It may have run out: as much time went by since it was asked for as it is granted for.
    pub fn may_be_over(&self, now: u64) -> bool
        ensures { result ≡ may_be_over self.now now }
    {
        now.saturating_sub(self.asked) >= self.term
    }

    // A quarter of the term has gone by since the last renewal was asked for, and none is under way.
    fn is_renewal_due(&self, now: u64) -> bool
        ensures { result ≡ is_renewal_due self.now now }
    {
        !self.is_renewing && now.saturating_sub(self.tried) >= self.term / 4
    }

    /// Whether a renewal is to be asked for, which is under way from then on: a quarter of the term after the last one.
    pub fn is_to_renew(&mut self, now: u64) -> bool
        ensures due { result ≡ is_renewal_due self.old now }
        ensures tried { self.new ≡ tried_at self.old now }
    {
        if !self.is_renewal_due(now) {
            return false;
        }
        self.tried = now;
        self.is_renewing = true;
        true
    }

    fn granted_since(&self, is_granted: bool) -> u64
        ensures { result
            ≡ (if self.now.is_renewing && is_granted then self.now.tried else self.now.asked) }
    {
        if self.is_renewing && is_granted {
            return self.tried;
        }
        self.asked
    }

    /// The renewal under way was granted, which counts from when it was asked for; or stays without an answer.
    pub fn answer(&mut self, is_granted: bool)
        ensures { self.new ≡ granted self.old is_granted }
    {
        self.asked = self.granted_since(is_granted);
        self.is_renewing = false;
    }
}
