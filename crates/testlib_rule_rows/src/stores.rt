//! Rows on a store with kept epochs: what it answers to one call and the next.

ghost use Rattle.std.specs.Prelude.{◌≡◌, ◌<◌};

use crate::answers::Answers;
use crate::heartbeats::MOST_OPERATIONS;
use crate::image_text::tell_image;
use kr_base::Steps;
use kr_defs::{Ill, Record};
use kr_image::ImageStore;
use kr_store::{At, Counts, Store};
use std::alloc::{AllocError, Global};
use std::marker::Brand;
use std::sync::ledger::{Blank, Ledger};
use testlib_rule_answers::{History, record_of};
use testlib_words::{Fields, RowFault};

// A store that is told and asked, the place of its next record, and the answers.
#[derive(Drop)]
struct Told<'a> {
    history: &'a mut History,
    place: i64,
    answers: &'a mut Answers,
}

/// What a store is told and asked, each a word and what belongs to it. The first record stands at place 0, each other
/// behind the last that has a meaning.
pub fn apply_row(alloc: Global, fields: &mut Fields) -> Result<String, RowFault> {
    let mut answers = Answers::new(alloc);
    tell_store(alloc, fields, &mut answers)?;
    Ok(answers.text(alloc)?)
}

fn tell_store(alloc: Global, fields: &mut Fields, answers: &mut Answers) -> Result<(), RowFault> {
    let mut history = History::new(alloc);
    let mut told = Told {
        history: &mut history,
        place: 0,
        answers,
    };
    tell_all::<Brand>(alloc, fields, &mut told, Blank::new(1))
}

fn tell_all<L: Ledger>(
    alloc: Global,
    fields: &mut Fields,
    told: &mut Told<'_>,
    blank: Blank,
) -> Result<(), RowFault>
    requires name { blank.name ≡ L.name }
    requires parts { blank.parts ≡ L.parts }
    requires some { 0 < L.parts }
{
    let mut steps: Steps<L> = Steps::new(blank);
    for _call in 0..MOST_OPERATIONS {
        if fields.is_empty() {
            break;
        }
        told.tell(alloc, fields, &mut steps)?;
    }
    Ok(())
}

impl Told<'_> {
    // Does what the next word calls for. Records are the hex of their values.
    fn tell<L: Ledger>(
        &mut self,
        alloc: Global,
        fields: &mut Fields,
        steps: &mut Steps<L>,
    ) -> Result<(), RowFault> {
        match fields.word()? {
            "mark" => self.mark(fields),
            "record" => self.apply(alloc, fields, steps),
            "revert" => self.revert(fields, steps),
            "forget" => self.forget(fields, steps),
            "at" => self.look_at(alloc, fields),
            "tip" => self.look(alloc, At::Tip),
            _ => Err(RowFault::Fields),
        }
    }

    fn mark(&mut self, fields: &mut Fields) -> Result<(), RowFault> {
        self.history.mark(fields.number()?)
    }

    fn forget<L: Ledger>(
        &mut self,
        fields: &mut Fields,
        steps: &mut Steps<L>,
    ) -> Result<(), RowFault> {
        self.history.forget_below(&fields.number()?, steps);
        Ok(())
    }

    fn apply<L: Ledger>(
        &mut self,
        alloc: Global,
        fields: &mut Fields,
        steps: &mut Steps<L>,
    ) -> Result<(), RowFault> {
        let record = record_of(alloc, fields.word()?)?;
        self.apply_record(alloc, &record, steps)
    }

    fn apply_record<L: Ledger>(
        &mut self,
        alloc: Global,
        record: &Record,
        steps: &mut Steps<L>,
    ) -> Result<(), RowFault> {
        match self.history.apply(self.place, record, steps)? {
            None => {
                self.place = self.place.saturating_add(1);
                self.answers.add("ok")?;
            }
            Some(cause) => self.answers.add(&cause_text(alloc, self.place, cause)?)?,
        }
        Ok(())
    }

    fn revert<L: Ledger>(
        &mut self,
        fields: &mut Fields,
        steps: &mut Steps<L>,
    ) -> Result<(), RowFault> {
        let epoch = fields.number()?;
        if self.history.revert(&epoch, steps).is_err() {
            self.answers.add("NoEpoch")?;
        }
        Ok(())
    }

    fn look_at(&mut self, alloc: Global, fields: &mut Fields) -> Result<(), RowFault> {
        self.look(alloc, At::Epoch(fields.number()?))
    }

    // What is looked at, and the image there.
    fn look(&mut self, alloc: Global, at: At) -> Result<(), RowFault> {
        let store = self.history.store();
        self.answers.add(&place_text(alloc, store, at)?)?;
        tell_image(alloc, store, at, self.answers)?;
        Ok(())
    }
}

// The cause by its name.
fn cause_text(alloc: Global, place: i64, cause: Ill) -> Result<String, AllocError> {
    format!(in alloc; "IllFormed {place} {cause:?}")
}

fn place_text(alloc: Global, store: &ImageStore, at: At) -> Result<String, AllocError> {
    match at {
        At::Tip => tip_text(alloc, &store.counts()),
        At::Epoch(epoch) => match store.next_broker(at, None) {
            Ok(_) => format!(in alloc; "at {epoch}"),
            Err(_) => format!(in alloc; "at {epoch} NoEpoch"),
        },
    }
}

// How much the present image has: brokers, topics, partitions, bytes of settings and features.
fn tip_text(alloc: Global, counts: &Counts) -> Result<String, AllocError> {
    let (brokers, topics, partitions) = (counts.brokers, counts.topics, counts.partitions);
    let (bytes, features) = (counts.config_bytes, counts.features);
    let named = format!(in alloc; "tip {brokers} {topics} {partitions}")?;
    format!(in alloc; "{named} {bytes} {features}")
}
