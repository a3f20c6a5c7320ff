//! A law of the records that make an image. The function's contract is the law.

ghost use Rattle.kr_defs.specs.ImageLaws.{OwnRecordsMakeImages};

/// The records of a valid image, in their order, make it out of the empty image.
pub fn own_records_make_images()
    ensures { OwnRecordsMakeImages }
{}
