//! Campaigns for the leadership, each with a token of its own.

ghost use Rattle.std.specs.Prelude.{◌≡◌, None};
ghost use Rattle.kr_link.specs.Clocks.{begun_with, next_campaign, settled_with, won_with};

/// A call that takes the leadership.
#[derive(Clone, Copy, Debug, Drop, PartialEq, Eq)]
pub struct Campaign {
    /// The number of the call, which the leader key that it makes names.
    pub token: u64,
    /// When its lease was asked for, in milliseconds.
    pub asked: u64,
}

/// The campaigns of a link: how many tokens were used, and the call that has no answer yet.
#[derive(Clone, Copy, Debug, Drop, PartialEq, Eq)]
pub struct Campaigns {
    /// The number of the next call; those below it were used.
    pub next: u64,
    /// The call whose answer is awaited.
    pub under_way: Option<Campaign>,
}

impl Campaigns {
    /// None was made.
    pub fn new() -> Campaigns
        ensures { result ≡ record { next = 0; under_way = None } }
    {
        Campaigns {
            next: 0,
            under_way: None,
        }
    }

    /// Makes one with a token that no other has, in the place of the one under way. None once all tokens are used.
    pub fn begin(&mut self, now: u64) -> Option<Campaign>
        ensures campaign { result ≡ next_campaign self.old now }
        ensures after { self.new ≡ begun_with self.old now }
    {
        if self.next >= u64::MAX {
            return None;
        }
        let campaign = Campaign {
            token: self.next,
            asked: now,
        };
        self.next += 1;
        self.under_way = Some(campaign);
        Some(campaign)
    }

    /// The call with this token was answered: that call, where its answer is awaited, from then on no more.
    pub fn settle(&mut self, token: u64) -> Option<Campaign>
        ensures won { result ≡ won_with self.old token }
        ensures after { self.new ≡ settled_with self.old token }
    {
        match self.under_way {
            Some(campaign) => {
                if campaign.token == token {
                    self.under_way = None;
                    return Some(campaign);
                }
                None
            }
            None => None,
        }
    }
}
