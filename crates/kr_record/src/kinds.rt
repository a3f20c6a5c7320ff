//! The kinds of records.

ghost use Rattle.std.specs.Prelude.{◌≡◌, ◌≢◌, ◌++◌, OnErr, OnOk};
ghost use Rattle.kr_defs.specs.declared.record.Record.TheVariants as variants;
ghost use Rattle.kr_layout.specs.Answers.{Begins};
ghost use Rattle.kr_record.specs.Answers.{GivesFront};
ghost use Rattle.kr_record.specs.Encodable.{IsEncodable, IsHeld};
ghost use Rattle.kr_record.specs.Reading.{kind_at, layout_at, served_at};
ghost use Rattle.kr_record.specs.Records as kinds;
ghost use Rattle.kr_record.specs.Spelling.{framed, record_value};

use crate::fault::RecordFault;
use crate::held::Held;
use crate::parts::{Field, Mine, Parts, Since};
use crate::pieces::Pieces;
use kr_base::NoMemory;
use kr_defs::{Broker, Ids, Partition, PartitionChange, Record};
use kr_layout::Reader;
use kr_wire::put_uvarint;

// Hands the kinds to another macro: of each its key, the newest version, which is the one that is
// written, the fields of a record of it, one of them a structure with its fields, if there is one, and
// what stands in the record, in the order of its layout. The last is a pattern as well as a value, but in
// the second group, of the kind that has a reader of its own.
macro_rules! each_kind {
    ($with:ident($($value:tt),*)) => {
        $with! {
            ($($value),*)
            {
                [0, 1: RegisterBroker { broker }
                    where state: Broker {
                        epoch, incarnation, endpoints, features, rack, fenced, stopping
                    }
                    = {
                        (broker, (incarnation, (epoch, (endpoints, (features, (rack, (fenced,
                        (Since::<1, _> { part: stopping }, ()))))))))
                    }]
                [1, 0: UnregisterBroker { broker, epoch } = { (broker, (epoch, ())) }]
                [2, 0: Topic { name, id } = { (name, (id, ())) }]
                [3, 2: Partition { index, topic }
                    where state: Partition {
                        replicas, in_sync, removing, adding, leader, leader_epoch, partition_epoch,
                        recovery, eligible, last_known
                    }
                    = {
                        (index, (topic, (
                            with_directories!($with, 1, replicas, (in_sync, (removing, (adding,
                            (leader, (leader_epoch, partition_epoch)))))),
                            tags!(0 since 0 recovery, 1 since 2 eligible, 2 since 2 last_known),
                        )))
                    }]
                [4, 0: Config { kind, name, key, value } = { (kind, (name, (key, (value, ())))) }]
                [7, 0: FenceBroker { broker, epoch } = { (broker, (epoch, ())) }]
                [8, 0: UnfenceBroker { broker, epoch } = { (broker, (epoch, ())) }]
                [9, 0: RemoveTopic { topic } = { (topic, ()) }]
                [12, 0: FeatureLevel { name, level } = { (name, (level, ())) }]
                [17, 1: BrokerRegistrationChange { broker, epoch, fenced, stopping }
                    = { (broker, (epoch, tags!(0 since 0 fenced, 1 since 1 stopping))) }]
                [20, 0: NoOp {} = { () }]
                [23, 0: BeginTransaction { name } = { tags!(0 since 0 name) }]
                [24, 0: EndTransaction {} = { () }]
                [25, 0: AbortTransaction { reason } = { tags!(0 since 0 reason) }]
            }
            {
                [5, 2: PartitionChange { index, topic }
                    where change: PartitionChange {
                        in_sync, leader, replicas, removing, adding, recovery, eligible, last_known
                    }
                    = {
                        (index, (topic, tags!(
                            0 since 0 in_sync, 1 since 0 leader, 2 since 0 replicas,
                            3 since 0 removing, 4 since 0 adding, 5 since 0 recovery,
                            6 since 2 eligible, 7 since 2 last_known, 8 since 1 (&())
                        )))
                    }]
            }
        }
    };
}

// Ids and others, behind which since a version a directory for each id stands.
macro_rules! with_directories {
    (writing, $first:literal, $ids:ident, $others:tt) => {
        (Since::<$first, _> { part: $ids }, $others)
    };
    (writing_change, $first:literal, $ids:ident, $others:tt) => {
        (Since::<$first, _> { part: $ids }, $others)
    };
    ($with:ident, $first:literal, $ids:ident, $others:tt) => {
        Since::<$first, _> { part: ($ids, $others) }
    };
}

// Tagged fields: of each its tag, the first version that has it, and its part.
macro_rules! tags {
    () => { () };
    ($tag:tt since $first:tt $part:tt $(, $($more:tt)*)?) => {
        (Field::<$tag, $first, _> { part: $part }, tags!($($($more)*)?))
    };
}

macro_rules! reading {
    (
        ($from:ident, $key:ident, $version:ident)
        {$([$number:literal, $newest:literal: $kind:ident {$($field:ident),*}
            $(where $own:ident: $structure:ident {$($part:ident),*})? = {$($parts:tt)*}])*}
        $group:tt
    ) => {
        match $key {
            $($number => {
                let $($parts)* = read_version($from, $number, $version, $newest)?;
                $(let $own = $structure {$($part),*};)?
                Ok(Record::$kind {$($field,)* $($own)?})
            })*
            _ => Err(RecordFault::UnknownKey { key: $key }),
        }
    };
}

macro_rules! writing {
    (
        ($value:ident, $out:ident)
        {$([$number:literal, $newest:literal: $kind:ident {$($field:ident),*}
            $(where $own:ident: $structure:ident {$($part:ident),*})? = {$($parts:tt)*}])*}
        $group:tt
    ) => {
        match $value {
            $(Record::$kind {$($field,)* $($own)?} => {
                $(let $structure {$($part),*} = $own;)?
                put_kind($out, $number, $newest, &$($parts)*)
            })*
            Record::PartitionChange { index, topic, change } => {
                put_partition_change(*index, *topic, change, $out)
            }
        }
    };
}

// The kind of the second group, which is that of a partition's change, from what such a record has.
macro_rules! writing_change {
    (
        ($index:ident, $topic:ident, $change:ident, $out:ident)
        $group:tt
        {[$number:literal, $newest:literal: $kind:ident {$($field:ident),*}
            where $own:ident: $structure:ident {$($part:ident),*} = {$($parts:tt)*}]}
    ) => {{
        let ($($field),*) = (&$index, &$topic);
        let $structure {$($part),*} = $change;
        put_kind($out, $number, $newest, &$($parts)*)
    }};
}

macro_rules! looking {
    (
        ($value:ident)
        $({$([$number:literal, $newest:literal: $kind:ident {$($field:ident),*}
            $(where $own:ident: $structure:ident {$($part:ident),*})? = {$($parts:tt)*}])*})*
    ) => {
        match $value {
            $($(Record::$kind {$($field,)* $($own)?} => {
                $($field.look();)*
                $($($own.$part.look();)*)?
            })*)*
        }
    };
}

/// The record of the kind with the key.
#[tactic(auto, unfolding(crate::specs::Reading::layout_at, crate::specs::Reading::kind_at))]
#[inline(always)]
pub(crate) fn read_kind(
    from: &mut Reader<'_, Mine>,
    key: u32,
    version: u32,
) -> Result<Record, RecordFault>
    ensures { GivesFront result from.new (layout_at key version from.old) }
{
    if key == 5 {
        return read_partition_change(from, version);
    }
    other_kind(from, key, version)
}

// The same of another key. It has the room for such a record, so that none is made ready for a partition's change.
#[inline(always)]
fn other_kind(from: &mut Reader<'_, Mine>, key: u32, version: u32) -> Result<Record, RecordFault>
    ensures { key ≢ 5 → GivesFront result from.new (layout_at key version from.old) }
{
    Ok(read_other(from, key, version)?)
}

// The same of another key than that of a partition's change, of which most records are. It stands alone,
// so that what reads these doesn't grow too large to be put in line.
#[tactic(auto, unfolding(crate::specs::Reading::layout_at, crate::specs::Reading::kind_at))]
#[inline(never)]
fn read_other(from: &mut Reader<'_, Mine>, key: u32, version: u32) -> Result<Record, RecordFault>
    ensures { key ≢ 5 → GivesFront result from.new (layout_at key version from.old) }
{
    each_kind!(reading(from, key, version))
}

#[inline(always)]
fn read_partition_change(from: &mut Reader<'_, Mine>, version: u32) -> Result<Record, RecordFault>
    ensures { GivesFront result from.new (kind_at kinds.partition_change version from.old) }
{
    let (index, (topic, parts)): (i32, (u128, ChangeParts)) = read_version(from, 5, version, 2)?;
    let change = change_of(parts);
    Ok(Record::PartitionChange {
        index,
        topic,
        change,
    })
}

// The tagged fields of a partition's change: those from tag 6 on, from 4, from 2, and all.
type ChangedIds<const TAG: u32, const FIRST: u32> = Field<TAG, FIRST, Option<Ids>>;

type From6 = (ChangedIds<6, 2>, (ChangedIds<7, 2>, (Field<8, 1, ()>, ())));

type From4 = (ChangedIds<4, 0>, (Field<5, 0, Option<i8>>, From6));

type From2 = (ChangedIds<2, 0>, (ChangedIds<3, 0>, From4));

type ChangeParts = (ChangedIds<0, 0>, (Field<1, 0, Option<i32>>, From2));

#[inline(always)]
fn change_of(parts: ChangeParts) -> PartitionChange
    ensures { result ≡ kinds.change_of parts }
{
    let tags!( 0 since 0 in_sync, 1 since 0 leader, 2 since 0 replicas, 3 since 0 removing, 4 since 0 adding, 5 since 0 recovery, 6 since 2 eligible, 7 since 2 last_known, 8 since 1 () ) =
        parts;
    PartitionChange {
        in_sync,
        leader,
        replicas,
        removing,
        adding,
        recovery,
        eligible,
        last_known,
    }
}

// What stands in a record of a kind, in a version that it has.
#[tactic(auto, unfolding(crate::specs::Reading::served_at))]
#[inline(always)]
fn read_version<P: Parts>(
    from: &mut Reader<'_, Mine>,
    key: u32,
    version: u32,
    newest: u32,
) -> Result<P, RecordFault>
    ensures { GivesFront result from.new (served_at key newest P.layout version from.old) }
{
    if version > newest {
        return Err(RecordFault::UnknownVersion { key, version });
    }
    Ok(P::read(from, version)?)
}

/// Appends the record's written form. Without memory what there was stays, and perhaps more behind it.
pub fn append(value: &Record, out: &mut Vec<u8>) -> Result<(), NoMemory>
    requires { IsEncodable value.now }
    ensures ok { OnOk result (out.new.items ≡ out.old.items ++ record_value value.now) }
    ensures err { OnErr result (Begins out.old.items out.new.items) }
{
    if let Record::PartitionChange {
        index,
        topic,
        change,
    } = value
    {
        return put_partition_change(*index, *topic, change, out);
    }
    append_any(value, out)
}

// The same of any kind. It stands alone, so that a partition's change, of which most records are, needs no room for others.
#[tactic(auto, unfolding(crate::specs::Records::chosen), using(crate::proofs::RecordForms::put_out))]
#[inline(never)]
fn append_any(value: &Record, out: &mut Vec<u8>) -> Result<(), NoMemory>
    requires { IsEncodable value.now }
    ensures ok { OnOk result (out.new.items ≡ out.old.items ++ record_value value.now) }
    ensures err { OnErr result (Begins out.old.items out.new.items) }
{
    each_kind!(writing(value, out))
}

#[tactic(auto, unfolding(crate::specs::Records::chosen), using(crate::proofs::RecordForms::put_out))]
fn put_partition_change(
    index: i32,
    topic: u128,
    change: &PartitionChange,
    out: &mut Vec<u8>,
) -> Result<(), NoMemory>
    ensures ok { OnOk result (out.new.items ≡
        out.old.items ++ record_value (variants.PartitionChange index topic change.now)) }
    ensures err { OnErr result (Begins out.old.items out.new.items) }
{
    each_kind!(writing_change(index, topic, change, out))
}

// The frame version, the key and the version of a record, and what stands in it.
#[tactic(auto, unfolding(crate::specs::Spelling::framed))]
fn put_kind<P: Pieces>(out: &mut Vec<u8>, key: u32, version: u32, parts: &P) -> Result<(), NoMemory>
    ensures ok { OnOk result (out.new.items ≡
        out.old.items ++ (framed key version ++ P.bytes parts.now)) }
    ensures err { OnErr result (Begins out.old.items out.new.items) }
{
    put_uvarint(out, 1)?;
    put_uvarint(out, key)?;
    put_uvarint(out, version)?;
    parts.put_pieces(out)
}

/// Each record that is held can stand in bytes.
#[tactic(auto, unfolding(crate::specs::Records::chosen), using(crate::proofs::RecordForms::looked_at))]
pub fn record_is_held(value: &Record)
    ensures { IsHeld value.now }
{
    each_kind!(looking(value))
}
