//! The core of a link: what it makes of what comes, as `law_core` has it.

ghost use Rattle.std.specs.Prelude.{◌≡◌, OnOk, nat_lt};
ghost use Rattle.law_core.specs.Core as laws;
ghost use Rattle.law_core.specs.Core.{core_step, first_core};
ghost use Rattle.kr_link.specs.Cores.{core_of};
ghost use Rattle.kr_link.specs.Roles.{held_of, is_batch_next, is_image_next, is_misplaced, law_role};
ghost use Rattle.kr_link.specs.Outgoing.{put_again, put_all};

use crate::{Action, DaemonFrame, Held, LinkRole, LogBatch, Outbox, StoredImage};
use kr_base::NoMemory;
use std::alloc::Global;

/// The core of a link, which answers each call by what goes out. Where a call had no memory, nothing is said of what it left: the
/// link is to be let go then.
#[derive(Drop)]
pub struct LinkCore {
    alloc: Global,
    // The place up to which the daemon was handed the log.
    fed: u64,
    role: LinkRole,
}

// It stands for more of the log than one of the place `before`.
fn is_after(image: &StoredImage, before: u64) -> bool
    ensures { result ≡ nat_lt before image.now.offset }
{
    before < image.offset()
}

impl LinkCore {
    /// The core of a link whose daemon was handed nothing.
    pub fn new(alloc: Global) -> LinkCore
        ensures { core_of result ≡ first_core }
    {
        LinkCore {
            alloc,
            fed: 0,
            role: LinkRole::Standby,
        }
    }

    /// The place up to which the daemon was handed the log.
    pub fn fed_end(&self) -> u64
        ensures { result ≡ self.now.fed }
    {
        self.fed
    }

    /// What it holds of the leadership.
    pub fn role(&self) -> &LinkRole
        ensures { result.now ≡ self.now.role }
    {
        &self.role
    }

    /// Another daemon takes the place of the one that was served.
    pub fn join(&mut self, out: &mut Outbox) -> Result<(), NoMemory>
        ensures core { OnOk result (core_of self.new
            ≡ (core_step (core_of self.old) laws.Joined).0) }
        ensures out { OnOk result (out.new
            ≡ put_all out.old (core_step (core_of self.old) laws.Joined).1) }
    {
        self.role.resign(out)?;
        self.fed = 0;
        self.role = LinkRole::Standby;
        Ok(())
    }

    /// The leadership is over, or may be.
    pub fn end(&mut self, out: &mut Outbox) -> Result<(), NoMemory>
        ensures core { OnOk result (core_of self.new ≡ (core_step (core_of self.old) laws.Over).0) }
        ensures out { OnOk result (out.new
            ≡ put_all out.old (core_step (core_of self.old) laws.Over).1) }
    {
        self.role.tell_lost(out)?;
        self.role.resign(out)?;
        self.role = LinkRole::Standby;
        Ok(())
    }

    /// The daemon wrote a batch.
    pub fn hear(&mut self, batch: LogBatch, out: &mut Outbox) -> Result<(), NoMemory>
        ensures core { OnOk result (core_of self.new
            ≡ (core_step (core_of self.old) (laws.Appended batch)).0) }
        ensures out { OnOk result (out.new
            ≡ put_all out.old (core_step (core_of self.old) (laws.Appended batch)).1) }
    {
        self.role.hear(self.alloc, batch, out)?;
        Ok(())
    }

    // The daemon doesn't lead, and was handed the log up to where the batch begins.
    fn is_batch_next(&self, batch: &LogBatch) -> bool
        ensures { result ≡ is_batch_next self.now.fed (law_role self.now.role) batch.now }
    {
        !self.role.is_leading() && batch.base() == self.fed
    }

    // The daemon doesn't lead, and was handed less of the log than the image stands for.
    fn is_image_next(&self, image: &StoredImage) -> bool
        ensures { result ≡ is_image_next self.now.fed (law_role self.now.role) image.now }
    {
        !self.role.is_leading() && self.fed < image.offset()
    }

    /// A batch was read in the log.
    pub fn find(&mut self, batch: LogBatch, out: &mut Outbox) -> Result<(), NoMemory>
        ensures core { OnOk result (core_of self.new
            ≡ (core_step (core_of self.old) (laws.Found batch)).0) }
        ensures out { OnOk result (out.new
            ≡ put_all out.old (core_step (core_of self.old) (laws.Found batch)).1) }
    {
        if !self.is_batch_next(&batch) {
            return Ok(());
        }
        self.fed = batch.end();
        out.put(Action::Send(DaemonFrame::Feed(batch)))?;
        self.role.begin(self.alloc, self.fed, out)?;
        Ok(())
    }

    /// An image was read that stands for a beginning of the log.
    pub fn find_image(&mut self, image: StoredImage, out: &mut Outbox) -> Result<(), NoMemory>
        ensures core { OnOk result (core_of self.new
            ≡ (core_step (core_of self.old) (laws.FoundImage image)).0) }
        ensures out { OnOk result (out.new
            ≡ put_all out.old (core_step (core_of self.old) (laws.FoundImage image)).1) }
    {
        if !self.is_image_next(&image) {
            return Ok(());
        }
        self.fed = image.offset();
        out.put(Action::Send(DaemonFrame::Load(image)))?;
        self.role.begin(self.alloc, self.fed, out)?;
        Ok(())
    }

    /// A campaign took effect. A leadership that is held isn't given up for another.
    pub fn win(&mut self, held: Held, out: &mut Outbox) -> Result<(), NoMemory>
        ensures core { OnOk result (core_of self.new
            ≡ (core_step (core_of self.old) (laws.Won (held_of held))).0) }
        ensures out { OnOk result (out.new
            ≡ put_all out.old (core_step (core_of self.old) (laws.Won (held_of held))).1) }
    {
        if self.role.has_leadership() {
            return Ok(());
        }
        self.role = LinkRole::Elected(held);
        self.role.begin(self.alloc, self.fed, out)?;
        Ok(())
    }

    /// The append for the leadership whose key was made at a revision, from a place on, stands: it is committed where it is the
    /// one under way.
    pub fn stand(&mut self, made: u64, base: u64, out: &mut Outbox) -> Result<(), NoMemory>
        ensures core { OnOk result (core_of self.new
            ≡ (core_step (core_of self.old) (laws.Stood made base)).0) }
        ensures out { OnOk result (out.new
            ≡ put_all out.old (core_step (core_of self.old) (laws.Stood made base)).1) }
    {
        if !self.role.awaits_append(made, base) {
            return Ok(());
        }
        let end = self.role.commit(self.alloc, self.fed, out)?;
        self.fed = end;
        Ok(())
    }

    /// A batch of the daemon's leadership doesn't begin where the last one ends.
    pub fn is_misplaced(&self, batch: &LogBatch) -> bool
        ensures { result ≡ is_misplaced self.now.fed (law_role self.now.role) batch.now }
    {
        self.role.is_misplaced(self.fed, batch)
    }

    /// The append under way has no answer yet, and is called for again: it does no harm.
    pub fn ask_again(&self, out: &mut Outbox) -> Result<(), NoMemory>
        ensures { OnOk result (out.new ≡ put_again out.old (law_role self.now.role)) }
    {
        self.role.ask_again(self.alloc, out)
    }

    /// The daemon gave an image; the one that stood when it was looked last is of the place `before`.
    pub fn give(
        &mut self,
        before: u64,
        image: StoredImage,
        out: &mut Outbox,
    ) -> Result<(), NoMemory>
        ensures core { OnOk result (core_of self.new
            ≡ (core_step (core_of self.old) (laws.Imaged before image)).0) }
        ensures out { OnOk result (out.new
            ≡ put_all out.old (core_step (core_of self.old) (laws.Imaged before image)).1) }
    {
        if !is_after(&image, before) {
            return Ok(());
        }
        let below = image.offset();
        out.put(Action::DropBatches {
            before,
            below,
            image,
        })?;
        Ok(())
    }
}
