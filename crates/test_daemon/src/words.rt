//! The words of the command line, each side of each limit.

use kr_defs::Text;
use kr_flags::{Settings, SettingsFault, help, settings};
use std::alloc::{AllocError, Global};
use std::test::Fail;

const LONGEST_CLUSTER: usize = 255;

// A line that the daemon takes, and what it says.
#[derive(Clone, Copy)]
struct Said {
    line: &'static str,
    listen: &'static str,
    node: i32,
    cluster: &'static str,
    salt: u64,
    link: Option<&'static str>,
    clients: u32,
}

const TAKEN: [Said; 5] = [
    Said {
        line: "--listen a --node 1 --cluster c --salt 7",
        listen: "a",
        node: 1,
        cluster: "c",
        salt: 7,
        link: None,
        clients: 8,
    },
    Said {
        line: "--listen=a --node=0 --cluster=c --salt=0 --link=b --clients=1",
        listen: "a",
        node: 0,
        cluster: "c",
        salt: 0,
        link: Some("b"),
        clients: 1,
    },
    Said {
        line: "--salt 18446744073709551615 --clients 63 --cluster c --node 2147483647 --listen a",
        listen: "a",
        node: 2_147_483_647,
        cluster: "c",
        salt: u64::MAX,
        link: None,
        clients: 63,
    },
    Said {
        line: "--listen a --node 10 --cluster=-c --salt 7 --link [::1]:9",
        listen: "a",
        node: 10,
        cluster: "-c",
        salt: 7,
        link: Some("[::1]:9"),
        clients: 8,
    },
    Said {
        line: "--listen a --node 1 --cluster 7 --salt 7 --clients 10",
        listen: "a",
        node: 1,
        cluster: "7",
        salt: 7,
        link: None,
        clients: 10,
    },
];

// Lines that it refuses.
const REFUSED: [&str; 23] = [
    "--listen a --node 1 --cluster c",
    "--listen a --node 1 --salt 7",
    "--listen a --cluster c --salt 7",
    "--node 1 --cluster c --salt 7",
    "--listen a --node 2147483648 --cluster c --salt 7",
    "--listen a --node +1 --cluster c --salt 7",
    "--listen a --node=-1 --cluster c --salt 7",
    "--listen a --node 01 --cluster c --salt 7",
    "--listen a --node= --cluster c --salt 7",
    "--listen a --node 1x --cluster c --salt 7",
    "--listen a --node 1 --cluster c --salt 18446744073709551616",
    "--listen a --node 1 --cluster c --salt 07",
    "--listen a --node 1 --cluster c --salt +7",
    "--listen a --node 1 --cluster c --salt 7 --clients 0",
    "--listen a --node 1 --cluster c --salt 7 --clients 64",
    "--listen a --node 1 --cluster c --salt 7 --clients 08",
    "--listen a --node 1 --cluster c --salt 7 --node 2",
    "--listen a --node 1 --cluster c --salt 7 more",
    "--listen a --node 1 --cluster c --salt 7 --more",
    "--listen a --node 1 --cluster c --salt 7 --link",
    "--listen a --node 1 --cluster c --salt 7 --link --clients",
    "--help",
    "--version",
];

// The words of a line.
fn words_of(alloc: Global, line: &str) -> Result<Vec<Text>, AllocError> {
    let mut words = Vec::new(alloc);
    for word in line.split(' ') {
        words.push(Text::from_str(alloc, word)?)?;
    }
    Ok(words)
}

fn read(alloc: Global, line: &str) -> Result<Result<Settings, SettingsFault>, AllocError> {
    let words = words_of(alloc, line)?;
    Ok(settings(alloc, &words))
}

// A line with a cluster of so many bytes.
fn line_with_cluster(alloc: Global, len: usize) -> Result<String, AllocError> {
    let mut line = String::from_str(alloc, "--listen a --node 1 --salt 7 --cluster ")?;
    for _ in 0..len {
        line.push('c')?;
    }
    Ok(line)
}

fn is_accepted(alloc: Global, line: &str) -> Result<bool, AllocError> {
    let read = read(alloc, line)?;
    Ok(read.is_ok())
}

fn is_refused(alloc: Global, line: &str) -> Result<bool, AllocError> {
    let read = read(alloc, line)?;
    Ok(matches!(&read, Err(SettingsFault::Refused)))
}

#[test]
fn lines_that_are_taken(rt: HostRuntime) -> Result<(), Fail> {
    let alloc = rt.alloc();
    for said in &TAKEN {
        assert!(rt; is_accepted(alloc, said.line)?);
    }
    let longest = line_with_cluster(alloc, LONGEST_CLUSTER)?;
    assert!(rt; is_accepted(alloc, longest.as_str())?);
    Ok(())
}

#[test]
fn lines_that_are_refused(rt: HostRuntime) -> Result<(), Fail> {
    let alloc = rt.alloc();
    for line in REFUSED {
        assert!(rt; is_refused(alloc, line)?);
    }
    let longer = line_with_cluster(alloc, LONGEST_CLUSTER + 1)?;
    assert!(rt; is_refused(alloc, longer.as_str())?);
    Ok(())
}

fn is_text(text: &Option<Text>, expected: Option<&str>) -> bool {
    match (text, expected) {
        (Some(text), Some(expected)) => text.as_str() == expected,
        (None, None) => true,
        _ => false,
    }
}

fn has_texts(settings: &Settings, said: &Said) -> bool {
    settings.listen.as_str() == said.listen
        && settings.cluster.as_str() == said.cluster
        && is_text(&settings.link, said.link)
}

fn has_numbers(settings: &Settings, said: &Said) -> bool {
    settings.node == said.node && settings.salt == said.salt && settings.clients == said.clients
}

fn is_said(alloc: Global, said: &Said) -> Result<bool, AllocError> {
    let read = read(alloc, said.line)?;
    Ok(match &read {
        Ok(settings) => has_texts(settings, said) && has_numbers(settings, said),
        Err(_) => false,
    })
}

#[test]
fn what_the_words_say(rt: HostRuntime) -> Result<(), Fail> {
    for said in &TAKEN {
        assert!(rt; is_said(rt.alloc(), said)?);
    }
    Ok(())
}

// Lines, and whether help or the version is shown.
const HELP: [(&str, bool); 6] = [
    ("--help", true),
    ("-h", true),
    ("--version", true),
    ("-V", true),
    ("--listen a --node 1 --cluster c --salt 7", false),
    ("--listen a --node 1 --cluster c", false),
];

fn is_shown(alloc: Global, line: &str) -> Result<bool, AllocError> {
    let words = words_of(alloc, line)?;
    Ok(help(alloc, &words).is_some())
}

#[test]
fn help_is_shown_where_it_is_asked_for(rt: HostRuntime) -> Result<(), Fail> {
    for (line, shown) in &HELP {
        assert!(rt; is_shown(rt.alloc(), line)? == *shown);
    }
    Ok(())
}
