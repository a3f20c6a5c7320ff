//! The command whose words are read.

ghost use Rattle.std.specs.Prelude.{◌≡◌, IfOk};
ghost use Rattle.clap.specs.Words.{IsParsedFrom, app_of};
ghost use Rattle.clap.specs.declared.parser.matches.ArgMatches.{ArgMatches};
ghost use Rattle.kr_flags.specs.Words as spec;
ghost use Rattle.kr_flags.specs.Words.{HasNeeded, IsOption};

use clap::{Arg, ArgAction, Command};
use std::alloc::{AllocError, Global};

// An option that takes one value.
fn optional<'a>(alloc: Global, name: &'a str, value: &'a str, help: &'a str) -> Arg<'a>
    ensures { IsOption (spec.optional name.now) result }
{
    Arg::new(alloc, name)
        .long(name)
        .action(ArgAction::Set)
        .value_name(value)
        .help(help)
}

// One that has to be there.
fn mandatory<'a>(alloc: Global, name: &'a str, value: &'a str, help: &'a str) -> Arg<'a>
    ensures { IsOption (spec.mandatory name.now) result }
{
    optional(alloc, name, value, help).required(true)
}

/// The daemon's command.
pub(crate) fn kr_daemon<'a>(alloc: Global) -> Result<Command<'a>, AllocError>
    ensures app { IfOk result (λ command. app_of command ≡ spec.kr_daemon) }
    ensures needed { IfOk result (λ command. (m : ArgMatches) → IsParsedFrom command m
        → HasNeeded m) }
{
    Command::new(alloc, "kr_daemon")
        .no_binary_name(true)
        .version("0.1")
        .about("The controller of a Kafka cluster in KRaft mode, served over TCP.")
        .arg(mandatory(
            alloc,
            "listen",
            "ADDR",
            "The address on which clients are served, host:port; no default",
        ))?
        .arg(mandatory(
            alloc,
            "node",
            "N",
            "This node's id, 0 to 2147483647; no default",
        ))?
        .arg(mandatory(
            alloc,
            "cluster",
            "TEXT",
            "The cluster id, at most 255 bytes; no default",
        ))?
        .arg(mandatory(
            alloc,
            "salt",
            "N",
            "The high 64 bits of the topic ids that this controller makes, 0 to 18446744073709551615; no default",
        ))?
        .arg(optional(
            alloc,
            "link",
            "ADDR",
            "The quorum's address, host:port; by default a quorum of this process alone commits at once",
        ))?
        .arg(optional(
            alloc,
            "clients",
            "N",
            "How many clients are served at once, 1 to 63; by default 8",
        ))
}
