//! Reading the words of the command line.

ghost use Rattle.std.specs.Prelude.{◌≡◌, ◌≢◌, ◌<◌, ◌≤◌, ◌≤ℤ◌, ◌⊎◌, ℕ, List, Some, None, true, false, is_some, map, option_map, pos, IfOk, IsErrOf, OnOk, IfSome, IsSomeAnd, IsNone};
ghost use Rattle.clap.specs.Words.{first_value, found_of, kind_of, takes};
ghost use Rattle.kr_defs.specs.Texts.{decimal_up_to};
ghost use Rattle.kr_flags.specs.Words as spec;
ghost use Rattle.kr_flags.specs.Words.{AreInRange, AreTaken, AreWrong, HasNeeded, Says, value_given};

use crate::command::kr_daemon;
use crate::numbers::long_up_to;
use crate::told::{Settings, SettingsFault};
use clap::error::ErrorKind;
use clap::{ArgMatches, Error};
use kr_defs::limits::LONGEST_CLUSTER;
use kr_defs::{Text, decimal_up_to};
use std::alloc::{AllocError, Global};

// How many clients are served at once where the words don't say it.
const CLIENTS: u32 = 8;

// The most clients that are served at once.
const MOST_CLIENTS: u32 = 63;

const GREATEST_NODE: u32 = 2_147_483_647;

fn fault_of(error: &Error) -> SettingsFault
    ensures { result ≡ SettingsFault.Refused → kind_of error.now ≢ ErrorKind.OutOfMemory }
{
    if error.kind() == ErrorKind::OutOfMemory {
        SettingsFault::NoMemory
    } else {
        SettingsFault::Refused
    }
}

// The words as the parser takes them.
fn strs<'a>(alloc: Global, words: &'a [Text]) -> Result<Vec<&'a str>, AllocError>
    ensures { IfOk result (λ strs. map (λ s. s.now) strs.items ≡ words.now) }
{
    let mut strs = Vec::new(alloc);
    for word in words {
        strs.push(word.as_str())?;
    }
    Ok(strs)
}

// The matches of the words.
fn parse<'a>(alloc: Global, words: &'a [&'a str]) -> Result<ArgMatches<'a>, SettingsFault>
    ensures values { IfOk result (λ m. (name : List ℕ) → first_value (found_of m) name
        ≡ value_given name (map (λ s. s.now) words.now)) }
    ensures needed { IfOk result HasNeeded }
    ensures taken { OnOk result (AreTaken (map (λ s. s.now) words.now)) }
    ensures refused { IsErrOf result SettingsFault.Refused
        → takes spec.kr_daemon (map (λ s. s.now) words.now) ≡ false }
{
    let command = kr_daemon(alloc)?;
    match command.try_get_matches_from(words) {
        Ok(matches) => Ok(matches),
        Err(error) => Err(fault_of(&error)),
    }
}

// The value of an option that has one.
fn value<'a>(matches: &ArgMatches<'a>, name: &str) -> &'a str
    requires { is_some (first_value (found_of matches.now) name.now) ≡ true }
    ensures { first_value (found_of matches.now) name.now ≡ Some result.now }
{
    match matches.get_str(name) {
        Some(text) => text,
        None => unreachable!(),
    }
}

// A node's id.
fn node_of(text: &str) -> Option<i32>
    ensures value { result ≡ option_map pos (decimal_up_to 2147483647 text.now) }
    ensures natural { IfSome result (λ n. pos 0 ≤ℤ n) }
{
    let node = decimal_up_to(GREATEST_NODE, text.as_bytes())?;
    Some(node as i32)
}

// How many clients: eight where the words don't say it.
fn clients_of(text: Option<&str>) -> Option<u32>
    ensures some { IfSome result (λ n. ((text.entry ≡ None) × (n ≡ 8))
        ⊎ IsSomeAnd text.entry (λ t. (decimal_up_to 63 t.now ≡ Some n) × (0 < n))) }
    ensures none { IsNone result → IsSomeAnd text.entry (λ t. (decimal_up_to 63 t.now ≡ None)
        ⊎ (decimal_up_to 63 t.now ≡ Some 0)) }
    ensures range { IfSome result (λ n. (0 < n) × (n ≤ 63)) }
{
    match text {
        None => Some(CLIENTS),
        Some(text) => match decimal_up_to(MOST_CLIENTS, text.as_bytes()) {
            Some(count) if count > 0 => Some(count),
            _ => None,
        },
    }
}

fn link_of(alloc: Global, text: Option<&str>) -> Result<Option<Text>, AllocError>
    ensures { IfOk result (λ link. link ≡ option_map (λ t. t.now) text.entry) }
{
    match text {
        None => Ok(None),
        Some(text) => Ok(Some(Text::from_str(alloc, text)?)),
    }
}

/// The settings that the words say, without the program's name, where the command takes them. Refused only where it doesn't, or
/// where a value isn't what its option stands for.
pub fn settings(alloc: Global, words: &[Text]) -> Result<Settings, SettingsFault>
    ensures taken { OnOk result (AreTaken words.now) }
    ensures says { IfOk result (Says words.now) }
    ensures refused { IsErrOf result SettingsFault.Refused → AreWrong words.now }
    ensures range { IfOk result AreInRange }
{
    let words = strs(alloc, words)?;
    settings_in(alloc, words.as_slice())
}

fn settings_in<'a>(alloc: Global, words: &'a [&'a str]) -> Result<Settings, SettingsFault>
    ensures taken { OnOk result (AreTaken (map (λ s. s.now) words.now)) }
    ensures says { IfOk result (Says (map (λ s. s.now) words.now)) }
    ensures refused { IsErrOf result SettingsFault.Refused
        → AreWrong (map (λ s. s.now) words.now) }
    ensures range { IfOk result AreInRange }
{
    let matches = parse(alloc, words)?;
    let cluster = value(&matches, "cluster");
    if cluster.len() > LONGEST_CLUSTER {
        return Err(SettingsFault::Refused);
    }
    let node = match node_of(value(&matches, "node")) {
        Some(node) => node,
        None => return Err(SettingsFault::Refused),
    };
    let salt = match long_up_to(u64::MAX, value(&matches, "salt").as_bytes()) {
        Some(salt) => salt,
        None => return Err(SettingsFault::Refused),
    };
    let clients = match clients_of(matches.get_str("clients")) {
        Some(clients) => clients,
        None => return Err(SettingsFault::Refused),
    };
    Ok(Settings {
        listen: Text::from_str(alloc, value(&matches, "listen"))?,
        node,
        cluster: Text::from_str(alloc, cluster)?,
        salt,
        link: link_of(alloc, matches.get_str("link"))?,
        clients,
    })
}

/// What is shown where the words ask for help or for the version; `settings` refuses such words.
pub fn help<'a>(alloc: Global, words: &'a [Text]) -> Option<Error>
    ensures { IfSome result (λ error. (kind_of error ≡ ErrorKind.DisplayHelp)
        ⊎ (kind_of error ≡ ErrorKind.DisplayVersion)) }
{
    let words = strs(alloc, words).ok()?;
    let command = kr_daemon(alloc).ok()?;
    let error = command.try_get_matches_from(words.as_slice()).err()?;
    match error.kind() {
        ErrorKind::DisplayHelp | ErrorKind::DisplayVersion => Some(error),
        _ => None,
    }
}
