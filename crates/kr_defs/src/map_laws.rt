//! Laws of maps, and of walks over them. Each function's contract is the law.

ghost use Rattle.std.specs.Prelude.{ℕ, ℤ, List};
ghost use Rattle.std.specs.declared.cmp.Ordering.{Ordering as AnyOrdering};
ghost use Rattle.kr_defs.specs.declared.partition.Partition.{Partition as AnyPartition};
ghost use Rattle.kr_defs.specs.MapLaws.{MapLaws, TopicWalks};
ghost use Rattle.kr_defs.specs.WalkLaws.{ValidImagesAreWalkedOnce};

/// A walk from one next entry to another passes each entry once, each entry is found under its key, and a new value
/// leaves those of all other keys.
pub fn maps_hold<K, V>()
    ensures { (order : K → K → AnyOrdering) (entries : List (K × V)) → MapLaws order entries }
{}

/// A walk that begins below the first index of a topic passes each partition of that topic.
pub fn topic_walks_pass_all()
    ensures { (partitions : List ((ℕ × ℤ) × AnyPartition)) → TopicWalks partitions }
{}

/// The walk of a valid image passes each partition beside its key and its topic's name, and none twice.
pub fn valid_images_are_walked_once()
    ensures { ValidImagesAreWalkedOnce }
{}
