//! What is true of each tape. The functions say so in their contracts, and do nothing.

ghost use Rattle.law_tape.specs.Tapes.{AllowedTapesAreSafe, VerdictsAreExact};

/// The first line that has a fault is the first that isn't allowed; where none has one, each is allowed.
pub fn verdicts_are_exact()
    ensures { VerdictsAreExact }
{}

/// Where each line of a tape is allowed, each daemon was handed only what it may be.
pub fn allowed_tapes_are_safe()
    ensures { AllowedTapesAreSafe }
{}
