//! An image is read from bytes that come in pieces.

ghost use Rattle.std.specs.Prelude.{◌≡◌, ◌++◌, [], List, ℕ, ℤ, IfOk, IsErr, Ok};
ghost use Rattle.kr_defs.specs.Image.{Image};
ghost use Rattle.kr_wire.specs.Laws.{IsBytes};
ghost use Rattle.kr_snapshot.specs.Grammar.{IsImage};
ghost use Rattle.kr_snapshot.specs.ReaderState.{Restores, StandsFor, feed_answer};
ghost use Rattle.kr_snapshot.specs.Reading as reading;

use crate::fault::ImageFault;
use crate::pieces::Pieces;
use kr_image::ImageStore;
use std::alloc::Global;
use std::marker::Model;

/// A reader of an image. It keeps the bytes of the head or of the batch that isn't whole yet, and the image of the
/// records before.
#[derive(Drop)]
pub struct Reader {
    // What was read so far.
    pieces: Pieces,
    // The fault that it answers from now on, if it met one.
    fault: Option<ImageFault>,
}

impl Model for Reader {
    ghost use Rattle.std.specs.Prelude.{Result};
    ghost use Rattle.kr_snapshot.specs.Reading.{Taken};
    ghost use Rattle.kr_snapshot.specs.declared.fault.ImageFault.{ImageFault};

    ghost Value = { Result Taken ImageFault };

    ghost use Rattle.kr_snapshot.specs.ReaderState.{IsWithoutFault, state_of, taken_in};

    ghost view = { λ r. state_of r.fault (taken_in r.pieces) };

    ghost invariant = { λ r. IsWithoutFault r.fault r.pieces };
}

impl Reader {
    /// A reader that no byte was fed to.
    pub fn new(alloc: Global) -> Reader
        ensures { StandsFor result [] }
    {
        Reader {
            pieces: Pieces::new(alloc),
            fault: None,
        }
    }

    /// The next bytes. It answers the first fault that all bytes so far show, whatever follows them, as soon as the head,
    /// the size of a batch or a whole batch shows it; and then again at each call.
    #[tactic(auto, using(crate::proofs::ReaderSteps::fed_more, crate::proofs::ReaderSteps::faulty_on, crate::proofs::ReaderSteps::answers))]
    pub fn feed(&mut self, piece: &[u8]) -> Result<(), ImageFault>
        ensures stands { (fed : List ℕ) → StandsFor self.old fed → StandsFor self.new (fed ++ piece.now) }
        ensures answer { result ≡ feed_answer self.new }
        ensures again { IsErr self.old → self.new ≡ self.old }
    {
        if let Some(fault) = self.fault {
            return Err(fault);
        }
        let answer = self.pieces.take(piece);
        self.fault = answer.err();
        answer
    }

    /// The offset and the store of the image that all bytes stand for: the offset is its one kept epoch, and the image its
    /// tip. Otherwise the first fault, or that of an earlier call.
    #[tactic(auto, using(crate::proofs::ReaderSteps::given_end, crate::proofs::ReaderSteps::given_found, crate::proofs::ReaderSteps::given_only, crate::proofs::ReaderSteps::fault_stays))]
    pub fn finish(self) -> Result<(i64, ImageStore), ImageFault>
        // What is given is what all bytes stand for.
        ensures found { (fed : List ℕ) → IsBytes fed → StandsFor self fed → IfOk result (λ x. IsImage x.0 x.1.tip fed) }
        // What they stand for is given, unless memory runs out.
        ensures only { (fed : List ℕ) (offset : ℤ) (image : Image) → StandsFor self fed → IsImage offset image fed → Restores result (Ok (offset, image)) }
        // Which fault it is.
        ensures exact { (fed : List ℕ) → StandsFor self fed → Restores result (reading.image_of fed) }
    {
        let Reader { pieces, fault } = self;
        match fault {
            Some(fault) => Err(fault),
            None => pieces.finish(),
        }
    }
}
