//! What holds of all pages and of all their messages. Each function says so in its contract, and does nothing.

ghost use Rattle.kr_pages.specs.Joined.{LinesRise, PagesJoin, PagesJoinLines};
ghost use Rattle.kr_pages.specs.Written.{DescribedAreWritten, DescribesAreWritten};

/// The lines of a valid image rise, and pages, each asked with the cursor that the one before gave, join to them.
#[tactic(auto, using(crate::proofs::Joining::pages_join, crate::proofs::Rising::lines_rise, crate::proofs::Rising::pages_join_lines))]
pub fn pages_join()
    ensures rise { LinesRise }
    ensures join { PagesJoin }
    ensures lines { PagesJoinLines }
{}

/// Bytes stand for at most one request for a page, and what is written for one reads back to it. What is written for a reply
/// stands for it, and two replies are never written alike.
#[tactic(auto, using(crate::proofs::Messages::describes_are_written, crate::proofs::Messages::described_are_written))]
pub fn messages_are_written()
    ensures describes { DescribesAreWritten }
    ensures described { DescribedAreWritten }
{}
