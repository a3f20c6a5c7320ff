//! What the types of a value see to: its numbers fit them, and its texts are UTF-8. These functions only look.

ghost use Rattle.std.specs.Prelude.{All, FitsSigned, IfSome, IsUtf8, ◌<◌, ◌^◌};
ghost use Rattle.std.specs.Int.{w16, w32, w64, w8};

use kr_defs::{Rows, Text};

pub(crate) trait Held {
    ghost held: { Self → Type 0 };

    fn look(&self)
        ensures { held self.now };
}

impl Held for bool {
    ghost held = { λ b. Unit {0} };

    fn look(&self) {}
}

impl Held for i8 {
    ghost held = { FitsSigned w8 };

    fn look(&self) {
        let _number = *self;
    }
}

impl Held for i16 {
    ghost held = { FitsSigned w16 };

    fn look(&self) {
        let _number = *self;
    }
}

impl Held for i32 {
    ghost held = { FitsSigned w32 };

    fn look(&self) {
        let _number = *self;
    }
}

impl Held for i64 {
    ghost held = { FitsSigned w64 };

    fn look(&self) {
        let _number = *self;
    }
}

impl Held for u128 {
    ghost held = { λ n. n < 2 ^ 128 };

    fn look(&self) {
        let _number = *self;
    }
}

impl Held for Text {
    ghost held = { IsUtf8 };

    fn look(&self) {
        let _bytes = self.as_bytes();
    }
}

impl<T: Held> Held for Option<T> {
    ghost held = { λ o. IfSome o T.held };

    fn look(&self) {
        if let Some(value) = self {
            value.look();
        }
    }
}

impl<T: Held> Held for Rows<T> {
    ghost held = { λ xs. All T.held xs };

    fn look(&self) {
        for row in self.as_slice() {
            row.look();
        }
    }
}
