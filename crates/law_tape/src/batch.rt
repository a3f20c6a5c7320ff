//! What stands in a log, and what a link knows of it.

ghost use Rattle.std.specs.Prelude.{◌≡◌, ◌+◌, nat_eq, nat_lt};
ghost use Rattle.law_tape.specs.Equality.{same_batch, same_held, same_image, same_keep};

use kr_defs::Rows;
use std::marker::Model;

/// A batch of records, its bytes told by a digest.
#[derive(Drop)]
pub struct TapeBatch {
    /// The place of its first record.
    pub base: u64,
    /// How many records it has.
    pub count: u64,
    /// Its epoch.
    pub epoch: u64,
    /// The number that stands for its bytes.
    pub digest: u64,
}

impl Model for TapeBatch {
    ghost use Rattle.std.specs.Prelude.{[], ◌∷◌};
    ghost use Rattle.law_quorum.specs.Batches as log_words;

    ghost Value = { log_words.Batch };

    ghost view = { λ b. record { base = b.base; count = b.count; epoch = b.epoch; bytes = b.digest ∷ [] } };
}

impl TapeBatch {
    /// The same batch again.
    pub fn copy(&self) -> TapeBatch
        ensures { result ≡ self.now }
    {
        TapeBatch {
            base: self.base,
            count: self.count,
            epoch: self.epoch,
            digest: self.digest,
        }
    }

    /// It is the other batch.
    pub fn is(&self, other: &TapeBatch) -> bool
        ensures { result ≡ same_batch self.now other.now }
    {
        self.base == other.base
            && self.count == other.count
            && self.epoch == other.epoch
            && self.digest == other.digest
    }

    /// It begins at the place.
    pub fn begins_at(&self, place: u128) -> bool
        ensures { result ≡ nat_eq self.now.base place }
    {
        self.base as u128 == place
    }

    /// It has a record.
    pub fn has_records(&self) -> bool
        ensures { result ≡ nat_lt 0 self.now.count }
    {
        0 < self.count
    }

    /// It has the epoch.
    pub fn is_of(&self, epoch: u64) -> bool
        ensures { result ≡ nat_eq self.now.epoch epoch }
    {
        self.epoch == epoch
    }

    /// The place behind its last record.
    pub fn end(&self) -> u128
        ensures { result ≡ self.now.base + self.now.count }
    {
        self.base as u128 + self.count as u128
    }
}

/// An image that stands for a log up to a place, told by a digest of its bytes.
#[derive(Drop)]
pub struct Image {
    /// The place up to which it stands for the log.
    pub offset: u64,
    /// The number that stands for its bytes.
    pub digest: u64,
}

impl Model for Image {
    ghost use Rattle.std.specs.Prelude.{[], ◌∷◌};
    ghost use Rattle.law_quorum.specs.Batches.{StoredImage};

    ghost Value = { StoredImage };

    ghost view = { λ i. record { offset = i.offset; bytes = i.offset ∷ (i.digest ∷ []) } };
}

impl Image {
    /// The same image again.
    pub fn copy(&self) -> Image
        ensures { result ≡ self.now }
    {
        Image {
            offset: self.offset,
            digest: self.digest,
        }
    }

    /// It is the other image.
    pub fn is(&self, other: &Image) -> bool
        ensures { result ≡ same_image self.now other.now }
    {
        self.offset == other.offset && (self.offset == other.offset && self.digest == other.digest)
    }

    /// The place up to which it stands for the log.
    pub fn place(&self) -> u64
        ensures { result ≡ self.now.offset }
    {
        self.offset
    }
}

/// A leadership that a node took.
#[derive(Drop)]
pub struct HeldLeadership {
    /// The epoch.
    pub epoch: u64,
    /// The number of the revision at which its key was made.
    pub made: u64,
    /// The place at which the log ended then.
    pub start: u64,
}

impl Model for HeldLeadership {
    ghost use Rattle.law_link.specs.Links as link_words;

    ghost Value = { link_words.Held };

    ghost view = { λ h. record { epoch = h.epoch; made = h.made; start = h.start } };
}

impl HeldLeadership {
    /// The same leadership again.
    pub fn copy(&self) -> HeldLeadership
        ensures { result ≡ self.now }
    {
        HeldLeadership {
            epoch: self.epoch,
            made: self.made,
            start: self.start,
        }
    }

    /// It is the other leadership.
    pub fn is(&self, other: &HeldLeadership) -> bool
        ensures { result ≡ same_held self.now other.now }
    {
        self.epoch == other.epoch && self.made == other.made && self.start == other.start
    }
}

/// A call of an append.
#[derive(Drop)]
pub struct AppendCall {
    /// The epoch of the leadership for which it is made.
    pub epoch: u64,
    /// The number of the revision at which that leadership's key was made.
    pub made: u64,
    /// The batches.
    pub group: Rows<TapeBatch>,
}

impl Model for AppendCall {
    ghost use Rattle.law_link.specs.Links as link_words;

    ghost Value = { link_words.Call };

    ghost view = { λ c. record { epoch = c.epoch; made = c.made; group = c.group } };
}

/// A call that puts an image in the place of batches, where the image that stands is of the place before.
#[derive(Drop)]
pub struct Keep {
    /// The place of the image that stands.
    pub before: u64,
    /// The other image.
    pub image: Image,
}

impl Model for Keep {
    ghost use Rattle.law_link.specs.Links as link_words;

    ghost Value = { link_words.Keep };

    ghost view = { λ k. record { before = k.before; image = k.image } };
}

impl Keep {
    /// The same call again.
    pub fn copy(&self) -> Keep
        ensures { result ≡ self.now }
    {
        Keep {
            before: self.before,
            image: self.image.copy(),
        }
    }

    /// It is the other call.
    pub fn is(&self, other: &Keep) -> bool
        ensures { result ≡ same_keep self.now other.now }
    {
        self.before == other.before && self.image.is(&other.image)
    }
}
