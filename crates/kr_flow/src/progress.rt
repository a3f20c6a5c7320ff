//! Where the bytes of a connection end.

ghost use Rattle.std.specs.Prelude.{◌≡◌, fold};
ghost use Rattle.kr_flow.specs.declared.progress.Progress.TheVariants as places;
ghost use Rattle.kr_flow.specs.Progresses as rules;

/// Where the bytes end that came so far, of messages that each stand behind their size.
#[derive(Clone, Copy, Debug, Drop, PartialEq, Eq)]
pub enum Progress {
    /// In a size of four bytes, of which so many came, and give this number so far.
    Size { count: u32, size: u32 },
    /// In a message, of which so many bytes lack.
    Body { lack: u32 },
}

impl Progress {
    /// Before the first message.
    pub fn new() -> Progress
        ensures { result ≡ places.Size 0 0 }
    {
        Progress::Size { count: 0, size: 0 }
    }

    // Behind a size or a byte of a message, of which so many bytes lack.
    fn before(lack: u32) -> Progress
        ensures { result ≡ rules.before lack }
    {
        if lack == 0 {
            return Progress::new();
        }
        Progress::Body { lack }
    }

    // Behind one byte more.
    fn step(self, byte: u8) -> Progress
        ensures { result ≡ rules.behind_byte self byte }
    {
        match self {
            Progress::Size { count, size } => {
                let size = ((u64::from(size) * 256 + u64::from(byte)) % 4_294_967_296) as u32;
                if count >= 3 {
                    return Progress::before(size);
                }
                Progress::Size {
                    count: count + 1,
                    size,
                }
            }
            Progress::Body { lack } => Progress::before(lack.saturating_sub(1)),
        }
    }

    /// Where they end behind these bytes.
    #[tactic(auto, using(std::proofs::lemmas::List::Sums::fold_more))]
    pub fn take(&mut self, bytes: &[u8])
        ensures { self.new ≡ fold rules.behind_byte self.old bytes.now }
    {
        for byte in bytes {
            *self = self.step(*byte);
        }
    }

    /// All messages that began have come whole.
    pub fn is_whole(self) -> bool
        ensures { result ≡ rules.is_between self }
    {
        match self {
            Progress::Size { count, .. } => count == 0,
            Progress::Body { .. } => false,
        }
    }
}
