//! How an entry names a topic.

ghost use Rattle.std.specs.Prelude.{◌≡◌};
ghost use Rattle.kr_defs.specs.Topics.{is_named_once};

use kr_defs::Text;

/// Exactly one of name and id is given; the id 0 is none.
pub(crate) fn is_named_once(name: &Option<Text>, topic: &u128) -> bool
    ensures { result ≡ is_named_once name.now topic.now }
{
    name.is_some() && *topic == 0 || name.is_none() && *topic != 0
}
