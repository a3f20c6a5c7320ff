//! A page of the description of topics, at one place.

ghost use Rattle.std.specs.Prelude.{◌≡◌, ◌≤◌, ◌+◌, ◌++◌, [], IfErr, IfOk, IsTrue, OnOk, fold, length, slice_get, take};
ghost use Rattle.std.specs.Option.{option_map, option_map_or};
ghost use Rattle.std.specs.Map.{keys_of};
ghost use Rattle.kr_calls.specs.SeatList.{image_below, is_kept_in};
ghost use Rattle.kr_view.specs.Seats.{Onward};
ghost use Rattle.kr_pages.specs.Lines.{names_of};
ghost use Rattle.kr_pages.specs.Pages.{limit_of, page};
ghost use Rattle.kr_describe.specs.inner.ShownLines as shown;
ghost use Rattle.kr_describe.specs.SteadyReads.{Calls, GoesSteadily, HasPageCause, IsPageStop, IsSteady, steady_image};

use crate::entries::{add_name, add_topics};
use crate::lookups::topic_id;
use crate::names::{Names, first_index, in_order};
use crate::steady::{PageFault, Steady};
use kr_base::NoMemory;
use kr_defs::{Copied, Rows, Text};
use kr_pages::{Describe, Described, DescribedParts, DescribedTopic, DescribedTopics, LineKey};
use kr_view::RecordReader;
use std::alloc::Global;

// A limit below 1 or above this counts as this.
const MOST_LINES: i32 = 2000;

fn limit_of(limit: &i32) -> usize
    ensures value { result ≡ limit_of limit.now }
    ensures few { result ≤ 2000 }
{
    let limit = *limit;
    if limit < 1 || limit > MOST_LINES {
        MOST_LINES as usize
    } else {
        limit as usize
    }
}

// ---- entries put together

// The entry is of the topic of this name, where there is a name.
fn is_of_topic(name: &Option<Text>, last: &DescribedTopic) -> bool
    ensures { result ≡ shown.is_of_topic name.now last.now }
{
    match (name, &last.name) {
        (Some(name), Some(last)) => name == last,
        _ => false,
    }
}

fn all_parts(parts: DescribedParts, more: DescribedParts) -> Result<DescribedParts, NoMemory>
    ensures { IfOk result (λ all. all ≡ parts ++ more) }
{
    let mut all = parts.into_vec();
    all.append(&mut more.into_vec())?;
    Ok(Rows::from_vec(all))
}

// An entry of the same topic as the last one joins it.
fn add_entry(topics: &mut Vec<DescribedTopic>, entry: DescribedTopic) -> Result<(), NoMemory>
    ensures { OnOk result (topics.new.items ≡ shown.with_line_entry topics.old.items entry) }
{
    let Some(mut last) = topics.pop() else {
        topics.push(entry)?;
        return Ok(());
    };
    if is_of_topic(&entry.name, &last) {
        last.parts = all_parts(last.parts, entry.parts)?;
        topics.push(last)?;
        return Ok(());
    }
    topics.push(last)?;
    topics.push(entry)?;
    Ok(())
}

// Where an entry of one line stands.
fn key_of_entry(alloc: Global, entry: DescribedTopic) -> LineKey
    ensures { result ≡ shown.key_of_entry entry }
{
    let index = match entry.parts.as_slice().first() {
        Some(part) => part.index,
        None => -1,
    };
    LineKey {
        topic: entry.name.unwrap_or(Text::new(alloc)),
        index,
    }
}

fn put_together(alloc: Global, lines: Vec<DescribedTopic>) -> Result<Vec<DescribedTopic>, NoMemory>
    ensures { IfOk result (λ topics. topics.items ≡ fold shown.with_line_entry [] lines.items) }
{
    let mut topics = Vec::new(alloc);
    for entry in lines {
        add_entry(&mut topics, entry)?;
    }
    Ok(topics)
}

// Where the entry behind the limit stands, which is taken away.
fn next_key(alloc: Global, lines: &mut Vec<DescribedTopic>, limit: usize) -> Option<LineKey>
    requires { length lines.old.items ≤ limit + 1 }
    ensures next { result ≡ option_map shown.key_of_entry (slice_get lines.old.items limit) }
    ensures first { lines.new.items ≡ take limit lines.old.items }
{
    if lines.len() <= limit {
        return None;
    }
    let entry = lines.pop()?;
    Some(key_of_entry(alloc, entry))
}

// The first entries put together, and where the one behind them stands.
fn page_of(alloc: Global, entries: DescribedTopics, limit: usize) -> Result<Described, NoMemory>
    requires { length entries ≤ limit + 1 }
    ensures { IfOk result (λ d. d ≡ shown.described_of entries limit) }
{
    let mut lines = entries.into_vec();
    let next = next_key(alloc, &mut lines, limit);
    let topics = Rows::from_vec(put_together(alloc, lines)?);
    Ok(Described { topics, next })
}

// ---- lines from a cursor on

// Of one name.
#[tactic(auto, using(crate::proofs::SoFar::ends))]
fn add_from<R: RecordReader>(
    alloc: Global,
    steady: &Steady,
    reader: &mut R,
    name: &Text,
    cursor: &LineKey,
    most: usize,
    entries: &mut DescribedTopics,
) -> Result<(), PageFault>
    requires steady { IsSteady steady.now (R.reading reader.old) }
    requires few { length entries.old ≤ most }
    ensures went { GoesSteadily R.reading R.with_reading steady.now reader.old reader.new result }
    ensures entries { OnOk result (entries.new ≡ take most (entries.old ++ option_map_or
        (shown.name_entries (steady_image steady.now (R.reading reader.old)) name.now)
        (shown.first_index name.now cursor.now) [])) }
{
    let Some(index) = first_index(name, cursor) else {
        return Ok(());
    };
    add_name(alloc, steady, reader, name, index, most, entries)?;
    Ok(())
}

// Of several names.
#[tactic(auto, using(crate::proofs::SoFar::ends))]
fn add_names<R: RecordReader>(
    alloc: Global,
    steady: &Steady,
    reader: &mut R,
    mut names: Names,
    cursor: &LineKey,
    most: usize,
    entries: &mut DescribedTopics,
) -> Result<(), PageFault>
    requires steady { IsSteady steady.now (R.reading reader.old) }
    requires few { length entries.old ≤ most }
    ensures went { GoesSteadily R.reading R.with_reading steady.now reader.old reader.new result }
    ensures entries { OnOk result (entries.new ≡ take most (entries.old ++ shown.names_entries
        (steady_image steady.now (R.reading reader.old)) cursor.now (keys_of names.entries))) }
{
    while let Some((name, ())) = names.pop_first() {
        add_from(alloc, steady, reader, &name, cursor, most, entries)?;
    }
    Ok(())
}

// Of the cursor's own topic, where there is one.
#[tactic(auto, using(crate::proofs::SoFar::ends))]
fn add_own<R: RecordReader>(
    alloc: Global,
    steady: &Steady,
    reader: &mut R,
    cursor: &LineKey,
    most: usize,
    entries: &mut DescribedTopics,
) -> Result<(), PageFault>
    requires steady { IsSteady steady.now (R.reading reader.old) }
    requires few { length entries.old ≤ most }
    ensures went { GoesSteadily R.reading R.with_reading steady.now reader.old reader.new result }
    ensures entries { OnOk result (entries.new ≡ take most (entries.old ++ shown.own_entries
        (steady_image steady.now (R.reading reader.old)) cursor.now)) }
{
    let Some(_id) = topic_id(alloc, steady, reader, &cursor.topic)? else {
        return Ok(());
    };
    add_name(
        alloc,
        steady,
        reader,
        &cursor.topic,
        cursor.index,
        most,
        entries,
    )?;
    Ok(())
}

// Of all topics.
#[tactic(auto, using(crate::proofs::SoFar::ends))]
fn add_all<R: RecordReader>(
    alloc: Global,
    steady: &Steady,
    reader: &mut R,
    cursor: &LineKey,
    most: usize,
    entries: &mut DescribedTopics,
) -> Result<(), PageFault>
    requires steady { IsSteady steady.now (R.reading reader.old) }
    requires few { length entries.old ≤ most }
    ensures went { GoesSteadily R.reading R.with_reading steady.now reader.old reader.new result }
    ensures entries { OnOk result (entries.new ≡ take most (entries.old ++ shown.names_entries
        (steady_image steady.now (R.reading reader.old)) cursor.now
        (keys_of (steady_image steady.now (R.reading reader.old)).topics))) }
{
    add_own(alloc, steady, reader, cursor, most, entries)?;
    add_topics(alloc, steady, reader, &cursor.topic, most, entries)?;
    Ok(())
}

// The cursor, or the one before all lines.
fn cursor_of(alloc: Global, cursor: &Option<LineKey>) -> Result<LineKey, NoMemory>
    ensures { IfOk result (λ key. key ≡ shown.cursor_or_first cursor.now) }
{
    match cursor {
        Some(LineKey { topic, index }) => Ok(LineKey {
            topic: topic.copied(alloc)?,
            index: *index,
        }),
        None => Ok(LineKey {
            topic: Text::new(alloc),
            index: -1,
        }),
    }
}

// Of the names that are asked for, or of all topics.
#[tactic(auto, using(crate::proofs::SoFar::ends))]
fn add_lines<R: RecordReader>(
    alloc: Global,
    steady: &Steady,
    reader: &mut R,
    describe: &Describe,
    most: usize,
    entries: &mut DescribedTopics,
) -> Result<(), PageFault>
    requires steady { IsSteady steady.now (R.reading reader.old) }
    requires few { length entries.old ≤ most }
    ensures went { GoesSteadily R.reading R.with_reading steady.now reader.old reader.new result }
    ensures entries { OnOk result (entries.new ≡ take most (entries.old ++ shown.names_entries
        (steady_image steady.now (R.reading reader.old)) (shown.cursor_or_first describe.now.cursor)
        (names_of (steady_image steady.now (R.reading reader.old)) describe.now.names))) }
{
    let cursor = cursor_of(alloc, &describe.cursor)?;
    if describe.names.is_empty() {
        add_all(alloc, steady, reader, &cursor, most, entries)?;
        return Ok(());
    }
    let names = in_order(alloc, &describe.names)?;
    add_names(alloc, steady, reader, names, &cursor, most, entries)?;
    Ok(())
}

/// The page that is asked for, of the image at the place. It makes several calls of the reader, and waits for nobody.
pub fn page<R: RecordReader>(
    alloc: Global,
    reader: &mut R,
    place: i64,
    describe: &Describe,
) -> Result<Described, PageFault>
    // each call leaves all but what the reader has seen
    ensures calls { Calls R.reading R.with_reading reader.old reader.new }
    ensures onward { Onward (R.reading reader.old).seen (R.reading reader.new).seen }
    ensures cause { HasPageCause (R.reading reader.old) (R.reading reader.new) result }
    ensures page { IfOk result (λ d. d
        ≡ page (image_below place (R.reading reader.new).seen.list) describe.now) }
    ensures kept { OnOk result (IsTrue (is_kept_in (R.reading reader.new).seen.list place)) }
    ensures stop { IfErr result (IsPageStop place (R.reading reader.old).seen.list
        (R.reading reader.new).seen.list) }
{
    let limit = limit_of(&describe.limit);
    let steady = Steady::begin(reader, place)?;
    let mut entries = Rows::new(alloc);
    add_lines(alloc, &steady, reader, describe, limit + 1, &mut entries)?;
    Ok(page_of(alloc, entries, limit)?)
}
