//! What rules judge by.

ghost use Rattle.std.specs.Prelude.{◌≡◌};

use kr_defs::Options;
use kr_sessions::{Context, Sessions};

/// What a request is judged by.
pub(crate) fn context_of<'a>(
    options: &'a Options,
    sessions: &'a Sessions,
    time: &i64,
    tip: &i64,
) -> Context<'a>
    ensures options { result.options.now ≡ options.now }
    ensures sessions { result.sessions.now ≡ sessions.now }
    ensures time { result.now ≡ time.now }
    ensures place { result.place ≡ tip.now }
{
    Context {
        options,
        sessions,
        now: *time,
        place: *tip,
    }
}
