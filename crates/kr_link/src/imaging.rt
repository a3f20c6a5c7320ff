//! When a daemon is asked for an image.

ghost use Rattle.std.specs.Prelude.{◌≡◌, true, false};
ghost use Rattle.kr_link.specs.Clocks.{image_settled, is_image_wanted};

/// What came of an image that a daemon gave.
#[derive(Clone, Copy, Debug, Drop, PartialEq, Eq)]
pub enum ImageAnswer {
    /// It stands for the log before its place, whose batches are dropped.
    Stands,
    /// It is of no later place than the one that stands, or another one came before it.
    Vain,
    /// That isn't known.
    Unknown,
}

/// What was asked of a daemon about images.
#[derive(Clone, Copy, Debug, Drop, PartialEq, Eq)]
pub struct Imaging {
    /// One was asked for, of which nothing is known yet.
    pub is_asked: bool,
    /// The place up to which the daemon was fed then.
    pub at: u64,
    /// The place up to which it was fed when one was last asked for in vain.
    pub vain: u64,
}

impl Imaging {
    /// Of a daemon that wasn't asked yet.
    pub fn new() -> Imaging
        ensures { result ≡ record { is_asked = false; at = 0; vain = 0 } }
    {
        Imaging {
            is_asked: false,
            at: 0,
            vain: 0,
        }
    }

    /// One is to be asked for: none is under way, and the daemon was fed so many places behind the image that stands and behind
    /// the last one in vain. Of 0 places: never.
    pub fn is_wanted(&self, fed: u64, image: u64, places: u64) -> bool
        ensures { result ≡ is_image_wanted self.now fed image places }
    {
        !self.is_asked && places > 0 && fed.saturating_sub(image.max(self.vain)) >= places
    }

    /// One is asked for.
    pub fn ask(&mut self, fed: u64)
        ensures { self.new ≡ record self.old { is_asked = true; at = fed } }
    {
        self.is_asked = true;
        self.at = fed;
    }

    /// What came of it.
    pub fn settle(&mut self, answer: ImageAnswer)
        ensures { self.new ≡ image_settled self.old answer }
    {
        self.is_asked = false;
        match answer {
            ImageAnswer::Stands => {}
            ImageAnswer::Vain => self.vain = self.at,
            ImageAnswer::Unknown => {}
        }
    }
}
