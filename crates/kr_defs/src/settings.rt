//! Values of settings, and names of the resources that have them.

ghost use Rattle.std.specs.Prelude.{◌≡◌};
ghost use Rattle.kr_defs.specs.Settings as settings;

use crate::limits::{GREATEST_BROKER, GREATEST_MINIMUM, LONGEST_KEY, LONGEST_VALUE};
use crate::texts::is_name;
use crate::{Text, decimal_up_to};

/// The key of the least number of replicas in sync.
pub const MINIMUM_KEY: &str = "min.insync.replicas";

/// The key of the switch for unclean election.
pub const UNCLEAN_KEY: &str = "unclean.leader.election.enable";

/// The minimum of replicas in sync that a value says: decimal without sign or leading zero, from 1 to 2147483647.
pub fn read_minimum(value: &[u8]) -> Option<i32>
    ensures { result ≡ settings.read_minimum value.now }
{
    let minimum = decimal_up_to(GREATEST_MINIMUM, value)?;
    if minimum == 0 {
        return None;
    }
    Some(minimum as i32)
}

/// What the value of a switch says: `true` or `false`.
pub fn read_switch(value: &Text) -> Option<bool>
    ensures { result ≡ settings.read_switch value.now }
{
    if value.as_str() == "true" {
        return Some(true);
    }
    if value.as_str() == "false" {
        return Some(false);
    }
    None
}

/// The text may name a broker resource: nothing, for all brokers, or a broker's id in decimal.
pub fn is_broker_name(name: &Text) -> bool
    ensures { result ≡ settings.is_broker_name name.now }
{
    name.is_empty() || decimal_up_to(GREATEST_BROKER, name.as_bytes()).is_some()
}

/// The text is 1 to 249 ASCII letters, digits, `.`, `_` and `-`.
pub fn is_setting_key(key: &Text) -> bool
    ensures { result ≡ settings.is_setting_key key.now }
{
    is_name(LONGEST_KEY, key)
}

/// The value isn't longer than 8,192 bytes, and reads where the key is `min.insync.replicas` or
/// `unclean.leader.election.enable`.
pub fn is_setting_value(key: &Text, value: &Text) -> bool
    ensures { result ≡ settings.is_setting_value key.now value.now }
{
    value.len() <= LONGEST_VALUE
        && (key.as_str() != MINIMUM_KEY || read_minimum(value.as_bytes()).is_some())
        && (key.as_str() != UNCLEAN_KEY || read_switch(value).is_some())
}

/// The key's value is a list.
pub fn is_list_key(key: &Text) -> bool
    ensures { result ≡ settings.is_list_key key.now }
{
    key.as_str() == "cleanup.policy"
        || key.as_str() == "leader.replication.throttled.replicas"
        || key.as_str() == "follower.replication.throttled.replicas"
}
