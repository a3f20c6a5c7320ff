//! What the words of the command line say.

use kr_defs::Text;
use std::alloc::AllocError;

/// What the daemon is told when it starts.
#[derive(Debug, Drop)]
pub struct Settings {
    /// The address on which clients are served.
    pub listen: Text,
    /// This node's id, at least 0.
    pub node: i32,
    /// The cluster id, at most 255 bytes.
    pub cluster: Text,
    /// The high 64 bits of each topic id that this controller makes.
    pub salt: u64,
    /// The quorum's address; none where a quorum of this process alone commits.
    pub link: Option<Text>,
    /// How many clients are served at once, 1 to 63.
    pub clients: u32,
}

/// Why there are no settings.
#[derive(Clone, Copy, Debug, Drop, PartialEq, Eq)]
pub enum SettingsFault {
    /// The command doesn't take the words, or a value is wrong.
    Refused,
    /// There was no memory.
    NoMemory,
}

impl From<AllocError> for SettingsFault {
    ghost use Rattle.std.specs.Prelude.{◌≡◌};
    ghost use Rattle.kr_flags.specs.declared.told.SettingsFault.TheVariants as faults;

    ghost from_gives = { λ _ fault. fault ≡ faults.NoMemory };

    fn from(_refused: AllocError) -> SettingsFault {
        SettingsFault::NoMemory
    }
}
