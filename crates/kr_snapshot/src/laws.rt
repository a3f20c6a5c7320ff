//! What holds of all bytes and of all images. The functions do nothing.

ghost use Rattle.std.specs.Prelude.{◌≡◌, ◌++◌, ℕ, ℤ, List, Ok, Err};
ghost use Rattle.kr_defs.specs.Image.{Image};
ghost use Rattle.kr_wire.specs.Laws.{IsBytes};
ghost use Rattle.kr_snapshot.specs.Grammar.{IsImage};
ghost use Rattle.kr_snapshot.specs.Reading.{image_of, so_far, with_piece};
ghost use Rattle.kr_snapshot.specs.declared.fault.ImageFault.{ImageFault as AnyFault};
ghost use Rattle.kr_snapshot.specs.ImageText.{image_text};
ghost use Rattle.kr_snapshot.specs.TextLaws.{WhereItFits};

/// What is read stands for its offset and image, what stands for them is read as them, and bytes stand for one offset
/// and one image at most.
#[tactic(auto, using(crate::proofs::WholeImages::images))]
pub fn images()
    ensures stands { (bytes : List ℕ) (offset : ℤ) (image : Image) → IsBytes bytes →
        image_of bytes ≡ Ok (offset, image) → IsImage offset image bytes }
    ensures read { (offset : ℤ) (image : Image) (bytes : List ℕ) →
        IsImage offset image bytes → image_of bytes ≡ Ok (offset, image) }
    ensures one { (bytes : List ℕ) (a b : ℤ) (i j : Image) →
        IsImage a i bytes → IsImage b j bytes → (a ≡ b) × (i ≡ j) }
{}

/// What is written for a valid image, whose numbers and texts are those of their types, stands for it at the offset,
/// and is read as it.
pub fn written_images()
    ensures stands { (offset : ℤ) (image : Image) →
        WhereItFits offset image (IsImage offset image (image_text offset image)) }
    ensures again { (offset : ℤ) (image : Image) →
        WhereItFits offset image (image_of (image_text offset image) ≡ Ok (offset, image)) }
{}

/// Bytes that come in pieces are read as all of them together, and a fault that they show stays, whatever follows.
pub fn read_in_pieces()
    ensures on { (fed piece : List ℕ) → so_far (fed ++ piece) ≡ with_piece (so_far fed) piece }
    ensures faults { (fed more : List ℕ) (fault : AnyFault) → so_far fed ≡ Err fault → image_of (fed ++ more) ≡ Err fault }
{}
