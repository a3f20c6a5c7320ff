//! The one place where a reader may get no copy. A trusted edge: only here is a miss counted.

ghost use Rattle.std.specs.Prelude.{◌≡◌, MatchResult};
ghost use Rattle.left_right.specs.Sides.{view};
ghost use Rattle.kr_view.specs.Edges.{seen_by, GetsCopy, GetsNone};

use crate::rule::{CopiesRule, Sees, ThreadView};
use crate::shown::Shown;
use left_right::reader::{Reader, Reading};

/// A reader outside of the copies.
#[derive(Drop)]
pub(crate) struct Edge {
    reader: Reader<Shown, ThreadView, CopiesRule>,
    misses: u64,
}

/// A reader that has a copy.
pub(crate) struct Entered {
    reading: Reading<Shown, ThreadView, CopiesRule>,
    misses: u64,
}

impl Edge {
    pub(crate) fn over(reader: Reader<Shown, ThreadView, CopiesRule>) -> Edge
        ensures { (seen_by result ≡ view reader.place) × (result.misses ≡ 0) }
    {
        Edge { reader, misses: 0 }
    }

    /// How often it got no copy; the count stands still at the greatest u64.
    pub(crate) fn misses(&self) -> u64
        ensures { result ≡ self.now.misses }
    {
        self.misses
    }

    /// Takes the copy that is shown. Where the crate gives none, the count rises and nothing else changes.
    pub(crate) fn enter(self) -> Result<Entered, Edge>
        ensures { MatchResult result (λ e. GetsCopy self e) (λ e. GetsNone self e) }
    {
        let Edge { reader, misses } = self;
        match reader.enter_as::<Sees>() {
            Ok(reading) => Ok(Entered { reading, misses }),
            Err(reader) => Err(Edge {
                reader,
                misses: misses.saturating_add(1),
            }),
        }
    }
}

impl Entered {
    /// The copy.
    pub(crate) fn get(&self) -> &Shown
        ensures { result.now ≡ self.now.reading.part.value }
    {
        self.reading.get()
    }

    /// Gives the copy back.
    pub(crate) fn leave(self) -> Edge
        ensures { (seen_by result ≡ view self.reading.place) × (result.misses ≡ self.misses) }
    {
        let Entered { reading, misses } = self;
        Edge {
            reader: reading.leave(),
            misses,
        }
    }
}
