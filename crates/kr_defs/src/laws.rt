//! What is true of the definitions. Each function says so in its contract, and does nothing.

ghost use Rattle.std.specs.Prelude.{◌≡◌, ℕ, ℤ, ◌+◌, ◌≤◌, List, IfSome, All, IsTrue, not, ◌==◌, false};
ghost use Rattle.kr_defs.specs.declared.record.Item.TheVariants as items;
ghost use Rattle.kr_defs.specs.declared.record.Record.TheVariants as kinds;
ghost use Rattle.kr_defs.specs.Image.{Image, IsValid, empty, has_topic, topic_name};
ghost use Rattle.std.specs.Option.{option_map};
ghost use Rattle.std.specs.Result.{result_err};
ghost use Rattle.kr_defs.specs.ImageOrder.{are_in_order, nothing_seen};
ghost use Rattle.kr_defs.specs.Records.{records_of};
ghost use Rattle.kr_defs.specs.Log.{Log, first, tip, more, image_at, apply_all, first_ill, IsBehindGood};
ghost use Rattle.kr_defs.specs.Apply as apply;
ghost use Rattle.kr_defs.specs.Apply.{Removes};
ghost use Rattle.kr_defs.specs.declared.record.Item.{Item as AnyItem};

/// The empty image is valid.
pub fn empty_is_valid()
    ensures { IsValid empty }
{}

/// Every item that has a meaning keeps a valid image valid.
pub fn apply_keeps_valid()
    ensures { (image after : Image) (item : AnyItem) → IsValid image →
        apply.apply image item ≡ Ok after → IsValid after }
{}

/// So does a whole log: its image at each place is valid.
pub fn logs_are_valid()
    ensures { (log : Log) (place : ℕ) (image : Image) → IsValid log.image →
        image_at log place ≡ Ok image → IsValid image }
{}

/// Control and NoOp change nothing.
pub fn nothing_changes()
    ensures control { (image : Image) → apply.apply image items.Control ≡ Ok image }
    ensures no_op { (image : Image) → apply.apply image (items.Record kinds.NoOp) ≡ Ok image }
{}

/// After RemoveTopic neither the topic is there, nor a partition or a setting of it.
pub fn removed_whole()
    ensures topic { (image after : Image) (id : ℕ) → Removes image id after →
        has_topic after.topics id ≡ false }
    ensures partitions { (image after : Image) (id : ℕ) → Removes image id after →
        All (λ e. IsTrue (not (e.0.0 == id))) after.partitions }
    ensures configs { (image after : Image) (id : ℕ) (name : List ℕ) → Removes image id after →
        topic_name image.topics id ≡ Some name → apply.HasNoSettingOf name after }
{}

/// The image at the tip of a log that is longer by one item is what the item makes of the image before, where it has a meaning
/// for an image. Below, nothing changes.
pub fn one_item_more()
    ensures start { (log : Log) → image_at log log.offset ≡ Ok log.image }
    ensures tip { (log : Log) (item : AnyItem) (image after : Image) → image_at log (tip log) ≡
        Ok image → apply.apply image item ≡ Ok after → image_at (more log item) (tip log + 1) ≡
        Ok after }
    ensures below { (log : Log) (item : AnyItem) (place : ℕ) → place ≤ tip log →
        image_at (more log item) place ≡ image_at log place }
{}

/// The first ill item is named exactly where the items have no image, with the cause that there is none, and all before it have one.
pub fn first_ill_is_named()
    ensures cause { (image : Image) (place : ℤ) (items : List AnyItem) → option_map (λ ill. ill.1)
        (first_ill image place items) ≡ result_err (apply_all image items) }
    ensures place { (image : Image) (place : ℤ) (items : List AnyItem) →
        IfSome (first_ill image place items) (IsBehindGood image place items) }
{}

/// The records that make a valid image are in the order in which an image is read.
pub fn records_are_in_order()
    ensures { (image : Image) → IsValid image →
        IsTrue (are_in_order nothing_seen (records_of image)) }
{}
