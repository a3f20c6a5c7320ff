//! What the calls of a link do to its core. The function says so in its contract, and does nothing.

ghost use Rattle.kr_link.specs.LinkMoves.{CallsAreMoves};

/// Each call of a link tells its core what came with it, once or not at all; besides it gives the leadership up, calls again for the
/// append under way, and does what is beside the log.
pub fn calls_are_moves()
    ensures { CallsAreMoves }
{}
