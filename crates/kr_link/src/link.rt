//! A link by its clock: when it asks and renews, pings and feeds, and what of what comes its core is told.

ghost use Rattle.std.specs.Prelude.{◌≡◌, OnOk, length};
ghost use Rattle.kr_link.specs.TimedLinks as timed;
ghost use Rattle.kr_link.specs.TimedLinks.{timed_of};

use crate::{
    Action, BEAT, Campaign, Campaigns, DaemonFrame, Held, ImageAnswer, Imaging, Lease, LinkCore,
    LogBatch, Outbox, Ping, Pings, StoredImage,
};
use kr_base::NoMemory;
use std::alloc::Global;

/// What a link is started with.
#[derive(Clone, Copy, Debug, Drop, PartialEq, Eq)]
pub struct LinkSettings {
    /// The term of its leases in milliseconds.
    pub term: u64,
    /// An image is asked for each time the log has grown by so many places; 0: never.
    pub images: u64,
}

/// What is seen of the log.
#[derive(Clone, Copy, Debug, Drop, PartialEq, Eq)]
pub struct SeenLog {
    /// The place at which it ends.
    pub end: u64,
    /// Somebody leads.
    pub is_led: bool,
    /// The place before which an image stands for it.
    pub image: u64,
}

/// What was asked of the store and has no answer yet; campaigns, appends, renewals and images are beside it.
#[derive(Clone, Copy, Debug, Drop, PartialEq, Eq)]
pub enum StoreQuestion {
    /// Nothing.
    Nothing,
    /// What is seen of the log.
    Look,
    /// Batches.
    Batches,
    /// The image.
    Image,
}

impl StoreQuestion {
    fn is_nothing(self) -> bool
        ensures { result ≡ timed.is_idle self }
    {
        match self {
            StoreQuestion::Nothing => true,
            _ => false,
        }
    }

    fn is_look(self) -> bool
        ensures { result ≡ timed.is_look self }
    {
        match self {
            StoreQuestion::Look => true,
            _ => false,
        }
    }

    fn is_batches(self) -> bool
        ensures { result ≡ timed.is_batches self }
    {
        match self {
            StoreQuestion::Batches => true,
            _ => false,
        }
    }
}

/// A link. Times are milliseconds of any clock that doesn't go back. Where a call had no memory, nothing is said of what it left:
/// the link is to be let go then.
#[derive(Drop)]
pub struct Link {
    alloc: Global,
    settings: LinkSettings,
    core: LinkCore,
    out: Outbox,
    pings: Option<Pings>,
    question: StoreQuestion,
    campaigns: Campaigns,
    lease: Option<Lease>,
    seen: SeenLog,
    imaging: Imaging,
    is_unanswered: bool,
    beat: u64,
}

impl Link {
    /// A link of which no daemon wants anything yet.
    #[tactic(auto, unfolding(crate::specs::TimedLinks::timed_of, crate::specs::TimedLinks::first_link))]
    pub fn new(alloc: Global, settings: LinkSettings) -> Link
        ensures { timed_of result ≡ timed.first_link settings }
    {
        Link {
            alloc,
            settings,
            core: LinkCore::new(alloc),
            out: Outbox::new(alloc),
            pings: None,
            question: StoreQuestion::Nothing,
            campaigns: Campaigns::new(),
            lease: None,
            seen: SeenLog {
                end: 0,
                is_led: false,
                image: 0,
            },
            imaging: Imaging::new(),
            is_unanswered: false,
            beat: 0,
        }
    }

    /// What is to be done next.
    #[tactic(auto, unfolding(crate::specs::TimedLinks::timed_of, crate::specs::TimedLinks::with_taken))]
    pub fn take(&mut self) -> Option<Action>
        ensures { timed_of self.old ≡ timed.with_taken result (timed_of self.new) }
    {
        self.out.take()
    }

    // The leadership is over, or may be.
    #[tactic(auto, unfolding(crate::specs::TimedLinks::timed_of, crate::specs::TimedLinks::gives_up))]
    fn end(&mut self) -> Result<(), NoMemory>
        ensures { OnOk result (timed_of self.new ≡ timed.gives_up (timed_of self.old)) }
    {
        self.core.end(&mut self.out)?;
        self.lease = None;
        self.is_unanswered = false;
        Ok(())
    }

    // The daemon's connection is closed.
    #[tactic(auto, unfolding(crate::specs::TimedLinks::timed_of, crate::specs::TimedLinks::closes))]
    fn close(&mut self) -> Result<(), NoMemory>
        ensures { OnOk result (timed_of self.new ≡ timed.closes (timed_of self.old)) }
    {
        self.out.put(Action::Close)?;
        self.pings = None;
        Ok(())
    }

    #[tactic(auto, unfolding(crate::specs::TimedLinks::let_go))]
    fn let_go(&mut self) -> Result<(), NoMemory>
        ensures { OnOk result (timed_of self.new ≡ timed.let_go (timed_of self.old)) }
    {
        self.end()?;
        self.close()?;
        Ok(())
    }

    // It looks at the log, unless it asks something already.
    #[tactic(auto, unfolding(crate::specs::TimedLinks::timed_of, crate::specs::TimedLinks::looks))]
    fn look(&mut self) -> Result<(), NoMemory>
        ensures { OnOk result (timed_of self.new ≡ timed.looks (timed_of self.old)) }
    {
        if !self.question.is_nothing() {
            return Ok(());
        }
        self.out.put(Action::Look)?;
        self.question = StoreQuestion::Look;
        Ok(())
    }

    // Pings the daemon.
    #[tactic(auto, unfolding(crate::specs::TimedLinks::timed_of, crate::specs::TimedLinks::pinged))]
    fn send_ping(&mut self, now: u64) -> Result<(), NoMemory>
        ensures { OnOk result (timed_of self.new ≡ timed.pinged (timed_of self.old) now) }
    {
        let led = self.core.role().epoch_led();
        match &mut self.pings {
            None => Ok(()),
            Some(pings) => {
                self.out.put(Action::Send(DaemonFrame::Ping))?;
                let event = self.out.events();
                pings.send(Ping {
                    event,
                    at: now,
                    led,
                })?;
                Ok(())
            }
        }
    }

    // Serves a daemon to which nothing was sent.
    #[tactic(auto, unfolding(crate::specs::TimedLinks::timed_of, crate::specs::TimedLinks::serves))]
    fn serve(&mut self) -> Result<(), NoMemory>
        ensures { OnOk result (timed_of self.new ≡ timed.serves (timed_of self.old)) }
    {
        self.core.join(&mut self.out)?;
        self.out.begin();
        self.pings = Some(Pings::new(self.alloc));
        self.lease = None;
        self.is_unanswered = false;
        self.imaging = Imaging::new();
        Ok(())
    }

    /// A daemon connected; the one before it isn't served any more.
    #[tactic(auto, unfolding(crate::specs::TimedLinks::on_join))]
    pub fn join(&mut self, now: u64) -> Result<(), NoMemory>
        ensures { OnOk result (timed_of self.new ≡ timed.on_join (timed_of self.old) now) }
    {
        self.serve()?;
        self.send_ping(now)?;
        Ok(())
    }

    #[tactic(auto, unfolding(crate::specs::TimedLinks::timed_of, crate::specs::TimedLinks::serves_none))]
    fn serve_none(&mut self)
        ensures { timed_of self.new ≡ timed.serves_none (timed_of self.old) }
    {
        self.pings = None;
    }

    /// The daemon's connection ended.
    #[tactic(auto, unfolding(crate::specs::TimedLinks::on_part))]
    pub fn part(&mut self) -> Result<(), NoMemory>
        ensures { OnOk result (timed_of self.new ≡ timed.on_part (timed_of self.old)) }
    {
        self.end()?;
        self.serve_none();
        Ok(())
    }

    #[tactic(auto, unfolding(crate::specs::TimedLinks::timed_of, crate::specs::TimedLinks::is_stray))]
    fn is_stray(&self, batch: &LogBatch) -> bool
        ensures { result ≡ timed.is_stray (timed_of self.now) batch.now }
    {
        self.core.is_misplaced(batch)
    }

    #[tactic(auto, unfolding(crate::specs::TimedLinks::timed_of, crate::specs::TimedLinks::hears))]
    fn hear(&mut self, batch: LogBatch) -> Result<(), NoMemory>
        ensures { OnOk result (timed_of self.new ≡ timed.hears (timed_of self.old) batch) }
    {
        self.core.hear(batch, &mut self.out)?;
        Ok(())
    }

    /// The daemon wrote a batch. One whose batches don't meet is let go.
    #[tactic(auto, unfolding(crate::specs::TimedLinks::on_write))]
    pub fn write(&mut self, batch: LogBatch) -> Result<(), NoMemory>
        ensures { OnOk result (timed_of self.new ≡ timed.on_write (timed_of self.old) batch) }
    {
        if self.is_stray(&batch) {
            return self.let_go();
        }
        self.hear(batch)
    }

    #[tactic(auto, unfolding(crate::specs::TimedLinks::timed_of, crate::specs::TimedLinks::is_served))]
    fn is_served(&self) -> bool
        ensures { result ≡ timed.is_served (timed_of self.now) }
    {
        self.pings.is_some()
    }

    // Whether that answers the oldest ping, which is answered from then on.
    #[tactic(auto, unfolding(crate::specs::TimedLinks::timed_of, crate::specs::TimedLinks::is_ping_answer, crate::specs::TimedLinks::with_ping_answer))]
    fn take_ping_answer(&mut self, event: u64, led: Option<u32>, now: u64) -> bool
        ensures is { result ≡ timed.is_ping_answer (timed_of self.old) event led }
        ensures after { timed_of self.new
            ≡ timed.with_ping_answer (timed_of self.old) event led now }
    {
        match &mut self.pings {
            None => false,
            Some(pings) => pings.answer(event, led, now),
        }
    }

    /// The daemon refused an event because it didn't lead as that says; it leads `led`. Where that answers no ping, it is let go.
    #[tactic(auto, unfolding(crate::specs::TimedLinks::on_refuse))]
    pub fn refuse(&mut self, event: u64, led: Option<u32>, now: u64) -> Result<(), NoMemory>
        ensures { OnOk result (timed_of self.new
            ≡ timed.on_refuse (timed_of self.old) event led now) }
    {
        if !self.is_served() {
            return Ok(());
        }
        if !self.take_ping_answer(event, led, now) {
            return self.let_go();
        }
        self.look()
    }

    #[tactic(auto, unfolding(crate::specs::TimedLinks::timed_of, crate::specs::TimedLinks::campaign_of, crate::specs::TimedLinks::settles_campaign))]
    fn settle_campaign(&mut self, token: u64) -> Option<Campaign>
        ensures campaign { result ≡ timed.campaign_of (timed_of self.old) token }
        ensures after { timed_of self.new ≡ timed.settles_campaign (timed_of self.old) token }
    {
        self.campaigns.settle(token)
    }

    #[tactic(auto, unfolding(crate::specs::TimedLinks::timed_of, crate::specs::TimedLinks::resigns))]
    fn resign(&mut self, held: Held) -> Result<(), NoMemory>
        ensures { OnOk result (timed_of self.new ≡ timed.resigns (timed_of self.old) held) }
    {
        self.out.put(Action::Resign { made: held.made })?;
        Ok(())
    }

    // A leadership is held whose lease was asked for at this time.
    #[tactic(auto, unfolding(crate::specs::TimedLinks::timed_of, crate::specs::TimedLinks::holds))]
    fn hold(&mut self, held: Held, asked: u64) -> Result<(), NoMemory>
        ensures { OnOk result (timed_of self.new ≡ timed.holds (timed_of self.old) held asked) }
    {
        self.core.win(held, &mut self.out)?;
        self.lease = Some(Lease::new(self.settings.term, asked));
        Ok(())
    }

    #[tactic(auto, unfolding(crate::specs::TimedLinks::timed_of, crate::specs::TimedLinks::holds_any))]
    fn holds_any(&self) -> bool
        ensures { result ≡ timed.holds_any (timed_of self.now) }
    {
        self.core.role().has_leadership()
    }

    // A leadership that no call awaits is given back, and one beside another that is held.
    #[tactic(auto, unfolding(crate::specs::TimedLinks::admits))]
    fn admit(&mut self, held: Held, campaign: Option<Campaign>) -> Result<(), NoMemory>
        ensures { OnOk result (timed_of self.new ≡ timed.admits (timed_of self.old) held campaign) }
    {
        match campaign {
            None => self.resign(held),
            Some(campaign) => {
                if self.holds_any() {
                    return self.resign(held);
                }
                self.hold(held, campaign.asked)
            }
        }
    }

    /// A campaign took effect. Its core is told so once; a leadership that no call awaits is given back.
    #[tactic(auto, unfolding(crate::specs::TimedLinks::on_win))]
    pub fn win(&mut self, token: u64, held: Held) -> Result<(), NoMemory>
        ensures { OnOk result (timed_of self.new ≡ timed.on_win (timed_of self.old) token held) }
    {
        let campaign = self.settle_campaign(token);
        self.admit(held, campaign)?;
        Ok(())
    }

    /// A campaign took no effect, or stays without an answer.
    pub fn lose(&mut self, token: u64)
        ensures { timed_of self.new ≡ timed.settles_campaign (timed_of self.old) token }
    {
        let _ = self.settle_campaign(token);
    }

    #[tactic(auto, unfolding(crate::specs::TimedLinks::timed_of, crate::specs::TimedLinks::is_awaited))]
    fn is_awaited(&self, made: u64, base: u64) -> bool
        ensures { result ≡ timed.is_awaited (timed_of self.now) made base }
    {
        self.core.role().awaits_append(made, base)
    }

    #[tactic(auto, unfolding(crate::specs::TimedLinks::timed_of, crate::specs::TimedLinks::commits))]
    fn commit(&mut self, made: u64, base: u64) -> Result<(), NoMemory>
        ensures { OnOk result (timed_of self.new ≡ timed.commits (timed_of self.old) made base) }
    {
        self.core.stand(made, base, &mut self.out)?;
        self.is_unanswered = false;
        Ok(())
    }

    /// The append for the leadership whose key was made at a revision, from a place on, stands.
    #[tactic(auto, unfolding(crate::specs::TimedLinks::on_stand))]
    pub fn stand(&mut self, made: u64, base: u64) -> Result<(), NoMemory>
        ensures { OnOk result (timed_of self.new ≡ timed.on_stand (timed_of self.old) made base) }
    {
        if !self.is_awaited(made, base) {
            return Ok(());
        }
        self.commit(made, base)
    }

    /// That append doesn't stand, and never will, or whether it does will never be known.
    #[tactic(auto, unfolding(crate::specs::TimedLinks::on_fail))]
    pub fn fail(&mut self, made: u64, base: u64) -> Result<(), NoMemory>
        ensures { OnOk result (timed_of self.new ≡ timed.on_fail (timed_of self.old) made base) }
    {
        if !self.is_awaited(made, base) {
            return Ok(());
        }
        self.end()
    }

    /// That append has no answer yet: it is called for again when it is later.
    #[tactic(auto, unfolding(crate::specs::TimedLinks::timed_of, crate::specs::TimedLinks::on_miss))]
    pub fn miss(&mut self, made: u64, base: u64)
        ensures { timed_of self.new ≡ timed.on_miss (timed_of self.old) made base }
    {
        let is_awaited = self.core.role().awaits_append(made, base);
        self.is_unanswered = self.is_unanswered || is_awaited;
    }

    // Campaigns, where a token is left.
    #[tactic(auto, unfolding(crate::specs::TimedLinks::timed_of, crate::specs::TimedLinks::campaigning))]
    fn campaign(&mut self, now: u64) -> Result<(), NoMemory>
        ensures { OnOk result (timed_of self.new ≡ timed.campaigning (timed_of self.old) now) }
    {
        match self.campaigns.begin(now) {
            None => Ok(()),
            Some(campaign) => {
                self.out.put(Action::Campaign {
                    token: campaign.token,
                })?;
                Ok(())
            }
        }
    }

    // Nobody leads, no campaign is under way, and the daemon answers.
    #[tactic(auto, unfolding(crate::specs::TimedLinks::timed_of, crate::specs::TimedLinks::may_campaign))]
    fn may_campaign(&self, now: u64) -> bool
        ensures { result ≡ timed.may_campaign (timed_of self.now) now }
    {
        !self.core.role().has_leadership()
            && !self.seen.is_led
            && self.campaigns.under_way.is_none()
            && self.is_fresh(now)
    }

    #[tactic(auto, unfolding(crate::specs::TimedLinks::stands_for))]
    fn stand_for(&mut self, now: u64) -> Result<(), NoMemory>
        ensures { OnOk result (timed_of self.new ≡ timed.stands_for (timed_of self.old) now) }
    {
        if !self.may_campaign(now) {
            return Ok(());
        }
        self.campaign(now)
    }

    // It doesn't lead, and its daemon answers.
    #[tactic(auto, unfolding(crate::specs::TimedLinks::timed_of, crate::specs::TimedLinks::is_follower, crate::specs::TimedLinks::is_ahead_now))]
    fn is_follower(&self) -> bool
        ensures { result ≡ timed.is_follower (timed_of self.now) }
    {
        !(self.core.role().is_leading() || self.is_far_ahead())
    }

    #[tactic(auto, unfolding(crate::specs::TimedLinks::timed_of, crate::specs::TimedLinks::is_below_image))]
    fn is_below_image(&self) -> bool
        ensures { result ≡ timed.is_below_image (timed_of self.now) }
    {
        self.core.fed_end() < self.seen.image
    }

    #[tactic(auto, unfolding(crate::specs::TimedLinks::timed_of, crate::specs::TimedLinks::is_below_end))]
    fn is_below_end(&self) -> bool
        ensures { result ≡ timed.is_below_end (timed_of self.now) }
    {
        self.core.fed_end() < self.seen.end
    }

    #[tactic(auto, unfolding(crate::specs::TimedLinks::timed_of, crate::specs::TimedLinks::reads_image))]
    fn read_image(&mut self) -> Result<(), NoMemory>
        ensures { OnOk result (timed_of self.new ≡ timed.reads_image (timed_of self.old)) }
    {
        self.out.put(Action::ReadImage)?;
        self.question = StoreQuestion::Image;
        Ok(())
    }

    #[tactic(auto, unfolding(crate::specs::TimedLinks::timed_of, crate::specs::TimedLinks::reads_batches))]
    fn read_batches(&mut self) -> Result<(), NoMemory>
        ensures { OnOk result (timed_of self.new ≡ timed.reads_batches (timed_of self.old)) }
    {
        let from = self.core.fed_end();
        let to = self.seen.end;
        self.out.put(Action::Read { from, to })?;
        self.question = StoreQuestion::Batches;
        Ok(())
    }

    // Reads on what the daemon wasn't fed; at the end of the log it campaigns.
    #[tactic(auto, unfolding(crate::specs::TimedLinks::follows))]
    fn follow(&mut self, now: u64) -> Result<(), NoMemory>
        ensures { OnOk result (timed_of self.new ≡ timed.follows (timed_of self.old) now) }
    {
        if !self.is_follower() {
            return Ok(());
        }
        if self.is_below_image() {
            return self.read_image();
        }
        if self.is_below_end() {
            return self.read_batches();
        }
        self.stand_for(now)
    }

    // It is far enough past the last image to ask for one.
    #[tactic(auto, unfolding(crate::specs::TimedLinks::timed_of, crate::specs::TimedLinks::wants_image))]
    fn wants_image(&self) -> bool
        ensures { result ≡ timed.wants_image (timed_of self.now) }
    {
        self.pings.is_some()
            && self
                .imaging
                .is_wanted(self.core.fed_end(), self.seen.image, self.places())
    }

    #[tactic(auto, unfolding(crate::specs::TimedLinks::timed_of, crate::specs::TimedLinks::asks_image))]
    fn ask_image(&mut self) -> Result<(), NoMemory>
        ensures { OnOk result (timed_of self.new ≡ timed.asks_image (timed_of self.old)) }
    {
        self.imaging.ask(self.core.fed_end());
        self.out.put(Action::AskImage)?;
        Ok(())
    }

    // Asks the daemon for an image, where that is wanted.
    #[tactic(auto, unfolding(crate::specs::TimedLinks::considers))]
    fn consider(&mut self) -> Result<(), NoMemory>
        ensures { OnOk result (timed_of self.new ≡ timed.considers (timed_of self.old)) }
    {
        if !self.wants_image() {
            return Ok(());
        }
        self.ask_image()
    }

    #[tactic(auto, unfolding(crate::specs::TimedLinks::timed_of, crate::specs::TimedLinks::is_looking))]
    fn is_looking(&self) -> bool
        ensures { result ≡ timed.is_looking (timed_of self.now) }
    {
        self.question.is_look()
    }

    #[tactic(auto, unfolding(crate::specs::TimedLinks::timed_of, crate::specs::TimedLinks::notes))]
    fn note(&mut self, seen: SeenLog)
        ensures { timed_of self.new ≡ timed.notes (timed_of self.old) seen }
    {
        self.question = StoreQuestion::Nothing;
        self.seen = seen;
    }

    /// This was seen of the log.
    #[tactic(auto, unfolding(crate::specs::TimedLinks::on_see))]
    pub fn see(&mut self, seen: SeenLog, now: u64) -> Result<(), NoMemory>
        ensures { OnOk result (timed_of self.new ≡ timed.on_see (timed_of self.old) seen now) }
    {
        if !self.is_looking() {
            return Ok(());
        }
        self.note(seen);
        self.consider()?;
        self.follow(now)?;
        Ok(())
    }

    // So many bytes were fed: whether another ping is due.
    #[tactic(auto, unfolding(crate::specs::TimedLinks::timed_of, crate::specs::TimedLinks::is_ping_due, crate::specs::TimedLinks::with_bytes))]
    fn count_bytes(&mut self, bytes: u64) -> bool
        ensures due { result ≡ timed.is_ping_due (timed_of self.old) bytes }
        ensures after { timed_of self.new ≡ timed.with_bytes (timed_of self.old) bytes }
    {
        match &mut self.pings {
            None => false,
            Some(pings) => pings.feed(bytes),
        }
    }

    // So many bytes were fed: where another ping is due, it is sent.
    #[tactic(auto, unfolding(crate::specs::TimedLinks::counts))]
    fn count(&mut self, bytes: u64, now: u64) -> Result<(), NoMemory>
        ensures { OnOk result (timed_of self.new ≡ timed.counts (timed_of self.old) bytes now) }
    {
        if !self.count_bytes(bytes) {
            return Ok(());
        }
        self.send_ping(now)
    }

    #[tactic(auto, unfolding(crate::specs::TimedLinks::timed_of, crate::specs::TimedLinks::is_reading, crate::specs::TimedLinks::is_ahead_now))]
    fn is_reading(&self) -> bool
        ensures { result ≡ timed.is_reading (timed_of self.now) }
    {
        self.question.is_batches() && !self.is_far_ahead()
    }

    #[tactic(auto, unfolding(crate::specs::TimedLinks::timed_of, crate::specs::TimedLinks::feeds))]
    fn feed(&mut self, batch: LogBatch) -> Result<(), NoMemory>
        ensures { OnOk result (timed_of self.new ≡ timed.feeds (timed_of self.old) batch) }
    {
        self.core.find(batch, &mut self.out)?;
        Ok(())
    }

    /// A batch was read. None is fed to a daemon that doesn't answer.
    #[tactic(auto, unfolding(crate::specs::TimedLinks::on_find))]
    pub fn find(&mut self, batch: LogBatch, now: u64) -> Result<(), NoMemory>
        ensures { OnOk result (timed_of self.new ≡ timed.on_find (timed_of self.old) batch now) }
    {
        if !self.is_reading() {
            return Ok(());
        }
        let bytes = batch.size() as u64;
        self.feed(batch)?;
        self.count(bytes, now)?;
        Ok(())
    }

    #[tactic(auto, unfolding(crate::specs::TimedLinks::timed_of, crate::specs::TimedLinks::loads))]
    fn load(&mut self, image: StoredImage) -> Result<(), NoMemory>
        ensures { OnOk result (timed_of self.new ≡ timed.loads (timed_of self.old) image) }
    {
        self.core.find_image(image, &mut self.out)?;
        Ok(())
    }

    /// The image was read.
    #[tactic(auto, unfolding(crate::specs::TimedLinks::on_find_image, crate::specs::TimedLinks::is_ahead_now))]
    pub fn find_image(&mut self, image: StoredImage, now: u64) -> Result<(), NoMemory>
        ensures { OnOk result (timed_of self.new
            ≡ timed.on_find_image (timed_of self.old) image now) }
    {
        if self.is_far_ahead() {
            return Ok(());
        }
        let bytes = image.size() as u64;
        self.load(image)?;
        self.count(bytes, now)?;
        Ok(())
    }

    #[tactic(auto, unfolding(crate::specs::TimedLinks::timed_of, crate::specs::TimedLinks::done_asking))]
    fn stop_asking(&mut self)
        ensures { timed_of self.new ≡ timed.done_asking (timed_of self.old) }
    {
        self.question = StoreQuestion::Nothing;
    }

    /// What was asked has no further answer; it is known, or isn't, why none.
    #[tactic(auto, unfolding(crate::specs::TimedLinks::on_finish))]
    pub fn finish(&mut self, is_known: bool) -> Result<(), NoMemory>
        ensures { OnOk result (timed_of self.new ≡ timed.on_finish (timed_of self.old) is_known) }
    {
        self.stop_asking();
        if is_known && !self.is_far_ahead() {
            return self.look();
        }
        Ok(())
    }

    // The daemon is behind with its answers, or there is none.
    #[tactic(auto, unfolding(crate::specs::TimedLinks::timed_of, crate::specs::TimedLinks::is_ahead_now))]
    fn is_far_ahead(&self) -> bool
        ensures { result ≡ timed.is_ahead_now (timed_of self.now) }
    {
        match &self.pings {
            None => true,
            Some(pings) => pings.is_far_ahead(),
        }
    }

    fn is_fresh(&self, now: u64) -> bool
        ensures { result ≡ timed.is_fresh_of self.now.pings now }
    {
        match &self.pings {
            None => false,
            Some(pings) => pings.is_fresh(now),
        }
    }

    fn silence(&self, now: u64) -> u64
        ensures { result ≡ timed.silence_of self.now.pings now }
    {
        match &self.pings {
            None => 0,
            Some(pings) => pings.silence(now),
        }
    }

    // Who leads asks for an image only where nobody else gave one.
    #[tactic(auto, unfolding(crate::specs::TimedLinks::timed_of, crate::specs::TimedLinks::places_of))]
    fn places(&self) -> u64
        ensures { result ≡ timed.places_of (timed_of self.now) }
    {
        if self.core.role().is_leading() {
            return self.settings.images.saturating_mul(2);
        }
        self.settings.images
    }

    fn is_lapsed(&self, now: u64) -> bool
        ensures { result ≡ timed.is_lapsed_of self.now.lease now }
    {
        match &self.lease {
            None => false,
            Some(lease) => lease.may_be_over(now),
        }
    }

    // The lease may have run out, or the daemon that leads doesn't answer for as long as one.
    #[tactic(auto, unfolding(crate::specs::TimedLinks::timed_of, crate::specs::TimedLinks::is_due_to_end))]
    fn is_due_to_end(&self, now: u64) -> bool
        ensures { result ≡ timed.is_due_to_end (timed_of self.now) now }
    {
        self.is_lapsed(now)
            || self.core.role().is_leading() && self.silence(now) > self.settings.term
    }

    #[tactic(auto, unfolding(crate::specs::TimedLinks::ends_when_due))]
    fn end_when_due(&mut self, now: u64) -> Result<(), NoMemory>
        ensures { OnOk result (timed_of self.new ≡ timed.ends_when_due (timed_of self.old) now) }
    {
        if !self.is_due_to_end(now) {
            return Ok(());
        }
        self.end()
    }

    // Calls again for an append that has no answer: it does no harm.
    #[tactic(auto, unfolding(crate::specs::TimedLinks::timed_of, crate::specs::TimedLinks::calls_again, crate::specs::TimedLinks::asks_again))]
    fn call_again(&mut self) -> Result<(), NoMemory>
        ensures { OnOk result (timed_of self.new ≡ timed.calls_again (timed_of self.old)) }
    {
        if !self.is_unanswered {
            return Ok(());
        }
        self.core.ask_again(&mut self.out)?;
        self.is_unanswered = false;
        Ok(())
    }

    // A quarter of the lease's term after the last time it is to be renewed, which is tried from then on.
    #[tactic(auto, unfolding(crate::specs::TimedLinks::timed_of, crate::specs::TimedLinks::is_to_renew, crate::specs::TimedLinks::tries))]
    fn is_to_renew(&mut self, now: u64) -> bool
        ensures due { result ≡ timed.is_to_renew (timed_of self.old) now }
        ensures after { timed_of self.new ≡ timed.tries (timed_of self.old) now }
    {
        match &mut self.lease {
            None => false,
            Some(lease) => lease.is_to_renew(now),
        }
    }

    #[tactic(auto, unfolding(crate::specs::TimedLinks::timed_of, crate::specs::TimedLinks::asks_renewal))]
    fn ask_renewal(&mut self) -> Result<(), NoMemory>
        ensures { OnOk result (timed_of self.new ≡ timed.asks_renewal (timed_of self.old)) }
    {
        match self.core.role().made() {
            None => Ok(()),
            Some(made) => {
                self.out.put(Action::Renew { made })?;
                Ok(())
            }
        }
    }

    #[tactic(auto, unfolding(crate::specs::TimedLinks::renews))]
    fn renew(&mut self, now: u64) -> Result<(), NoMemory>
        ensures { OnOk result (timed_of self.new ≡ timed.renews (timed_of self.old) now) }
    {
        if !self.is_to_renew(now) {
            return Ok(());
        }
        self.ask_renewal()
    }

    #[tactic(auto, unfolding(crate::specs::TimedLinks::timed_of, crate::specs::TimedLinks::ticks))]
    fn tick(&mut self) -> Result<(), NoMemory>
        ensures { OnOk result (timed_of self.new ≡ timed.ticks (timed_of self.old)) }
    {
        if !self.core.role().is_leading() {
            return Ok(());
        }
        self.out.put(Action::Send(DaemonFrame::Tick))?;
        Ok(())
    }

    // The daemon doesn't answer for four terms.
    #[tactic(auto, unfolding(crate::specs::TimedLinks::timed_of, crate::specs::TimedLinks::is_silent))]
    fn is_silent(&self, now: u64) -> bool
        ensures { result ≡ timed.is_silent (timed_of self.now) now }
    {
        self.silence(now) > self.settings.term.saturating_mul(4)
    }

    // A daemon that doesn't answer is let go; else who leads is told the time, each is pinged, and the log looked at.
    #[tactic(auto, unfolding(crate::specs::TimedLinks::beats))]
    fn beat(&mut self, now: u64) -> Result<(), NoMemory>
        ensures { OnOk result (timed_of self.new ≡ timed.beats (timed_of self.old) now) }
    {
        if self.is_silent(now) {
            return self.let_go();
        }
        self.tick()?;
        self.send_ping(now)?;
        self.look()?;
        Ok(())
    }

    #[tactic(auto, unfolding(crate::specs::TimedLinks::timed_of, crate::specs::TimedLinks::is_beat))]
    fn is_beat(&self, now: u64) -> bool
        ensures { result ≡ timed.is_beat (timed_of self.now) now }
    {
        self.pings.is_some() && self.beat <= now
    }

    #[tactic(auto, unfolding(crate::specs::TimedLinks::timed_of, crate::specs::TimedLinks::with_beat))]
    fn set_beat(&mut self, now: u64)
        ensures { timed_of self.new ≡ timed.with_beat (timed_of self.old) now }
    {
        self.beat = now.saturating_add(BEAT);
    }

    #[tactic(auto, unfolding(crate::specs::TimedLinks::beats_when_due))]
    fn beat_when_due(&mut self, now: u64) -> Result<(), NoMemory>
        ensures { OnOk result (timed_of self.new ≡ timed.beats_when_due (timed_of self.old) now) }
    {
        if !self.is_beat(now) {
            return Ok(());
        }
        self.set_beat(now);
        self.beat(now)?;
        Ok(())
    }

    /// It is later.
    #[tactic(auto, unfolding(crate::specs::TimedLinks::on_wake))]
    pub fn wake(&mut self, now: u64) -> Result<(), NoMemory>
        ensures { OnOk result (timed_of self.new ≡ timed.on_wake (timed_of self.old) now) }
    {
        self.end_when_due(now)?;
        self.call_again()?;
        self.renew(now)?;
        self.beat_when_due(now)?;
        Ok(())
    }

    #[tactic(auto, unfolding(crate::specs::TimedLinks::timed_of, crate::specs::TimedLinks::is_held_at))]
    fn is_held_at(&self, made: u64) -> bool
        ensures { result ≡ timed.is_held_at (timed_of self.now) made }
    {
        self.core.role().is_made_at(made)
    }

    #[tactic(auto, unfolding(crate::specs::TimedLinks::timed_of, crate::specs::TimedLinks::grants))]
    fn grant(&mut self, is_granted: bool)
        ensures { timed_of self.new ≡ timed.grants (timed_of self.old) is_granted }
    {
        if let Some(lease) = &mut self.lease {
            lease.answer(is_granted);
        }
    }

    /// The renewal under way of the lease of this leadership was granted, or stays without an answer.
    #[tactic(auto, unfolding(crate::specs::TimedLinks::on_renewal))]
    pub fn answer_renewal(&mut self, made: u64, is_granted: bool)
        ensures { timed_of self.new ≡ timed.on_renewal (timed_of self.old) made is_granted }
    {
        if self.is_held_at(made) {
            self.grant(is_granted);
        }
    }

    /// The lease of this leadership isn't there any more.
    #[tactic(auto, unfolding(crate::specs::TimedLinks::on_lapse))]
    pub fn lapse(&mut self, made: u64) -> Result<(), NoMemory>
        ensures { OnOk result (timed_of self.new ≡ timed.on_lapse (timed_of self.old) made) }
    {
        if !self.is_held_at(made) {
            return Ok(());
        }
        self.end()
    }

    #[tactic(auto, unfolding(crate::specs::TimedLinks::timed_of, crate::specs::TimedLinks::is_later_image))]
    fn is_later_image(&self, image: &StoredImage) -> bool
        ensures { result ≡ timed.is_later_image (timed_of self.now) image.now }
    {
        self.seen.image < image.offset()
    }

    #[tactic(auto, unfolding(crate::specs::TimedLinks::timed_of, crate::specs::TimedLinks::keeps_image))]
    fn keep_image(&mut self, image: StoredImage) -> Result<(), NoMemory>
        ensures { OnOk result (timed_of self.new ≡ timed.keeps_image (timed_of self.old) image) }
    {
        self.core.give(self.seen.image, image, &mut self.out)?;
        Ok(())
    }

    /// The daemon gave an image.
    #[tactic(auto, unfolding(crate::specs::TimedLinks::on_give))]
    pub fn give(&mut self, image: StoredImage) -> Result<(), NoMemory>
        ensures { OnOk result (timed_of self.new ≡ timed.on_give (timed_of self.old) image) }
    {
        if !self.is_later_image(&image) {
            self.settle_image(ImageAnswer::Vain);
            return Ok(());
        }
        self.keep_image(image)
    }

    /// What came of that image.
    #[tactic(auto, unfolding(crate::specs::TimedLinks::timed_of, crate::specs::TimedLinks::on_settle_image))]
    pub fn settle_image(&mut self, answer: ImageAnswer)
        ensures { timed_of self.new ≡ timed.on_settle_image (timed_of self.old) answer }
    {
        self.imaging.settle(answer);
    }
}
