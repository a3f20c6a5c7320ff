//! Compares how a client's connection is served, over memory and in another thread than the controller's worker, with rows of
//! expected replies and ends.

use crate::controller::serve_talk;
use crate::pages::PAGES;
use crate::rows::ROWS;
use crate::talk::Talk;
use std::alloc::Global;
use std::sync::Wait;
use std::test::Fail;
use std::thread::Threads;
use testlib_words::RowFault;

// How many rows there are.
const COUNT: usize = 330;

// Does what the row asks. Where that is the end, it answers how what came differs from what the row expects, if it does.
fn do_row<R: Threads + Wait + Sync>(
    rt: &R,
    alloc: Global,
    talk: &mut Option<Talk>,
    line: &str,
) -> Result<Option<String>, RowFault> {
    let Some((asked, expected)) = line.split_once('\t') else {
        return Err(RowFault::Fields);
    };
    let (word, fields) = asked.split_once(' ').unwrap_or((asked, ""));
    if word == "open" {
        *talk = Some(Talk::new(alloc, fields)?);
        return Ok(None);
    }
    if word == "end" {
        return end(rt, alloc, talk.take(), expected);
    }
    match talk {
        None => Err(RowFault::Fields),
        Some(talk) => {
            talk.add(alloc, word, fields, expected)?;
            Ok(None)
        }
    }
}

// The client has no more to send: the connection is served.
fn end<R: Threads + Wait + Sync>(
    rt: &R,
    alloc: Global,
    talk: Option<Talk>,
    expected: &str,
) -> Result<Option<String>, RowFault> {
    let Some(talk) = talk else {
        return Err(RowFault::Fields);
    };
    let text = serve_talk(rt, alloc, talk)?.text(alloc)?;
    if text.as_str() == expected {
        return Ok(None);
    }
    Ok(Some(text))
}

// How a row differs.
fn difference(came: &Result<Option<String>, RowFault>) -> &str {
    match came {
        Ok(Some(text)) => text.as_str(),
        Ok(None) => "",
        Err(RowFault::Fields) => "no row",
        Err(RowFault::NoMemory) => "no memory",
    }
}

#[test]
fn connections_are_served_as_rows_say(rt: HostRuntime) -> Result<(), Fail> {
    let mut talk = None;
    let mut count = 0usize;
    for rows in [ROWS, PAGES] {
        for line in rows.lines() {
            if !line.is_empty() && !line.starts_with('#') {
                let came = do_row(&rt, rt.alloc(), &mut talk, line);
                assert!(rt; matches!(&came, Ok(None)), "{line}: {}", difference(&came));
                count = count.saturating_add(1);
            }
        }
    }
    assert_eq!(rt; count, COUNT);
    assert!(rt; talk.is_none());
    Ok(())
}
