//! Values that have a text in JSON.

ghost use Rattle.std.specs.Prelude.{◌≡◌, ◌++◌, ℕ, List, OnOk};
ghost use Rattle.std.specs.Fmt.{signed_decimal};
ghost use Rattle.kr_json.specs.JsonText as texts;

use crate::members::{put_i8, put_i16, put_i32, put_i64};
use crate::text::{put_boolean, put_id, put_string, put_string_or_null};
use kr_defs::Text;
use std::alloc::{AllocError, Global};

/// A value that has a text in JSON (RFC 8259).
pub trait Json {
    ghost json: { Self → List ℕ };

    /// Appends the text. Without memory some of it may stand behind what there was.
    fn put_json(&self, alloc: Global, out: &mut Vec<u8>) -> Result<(), AllocError>
        ensures { OnOk result (out.new.items ≡ out.old.items ++ json self.now) };
}

impl Json for i8 {
    ghost json = { signed_decimal };

    fn put_json(&self, alloc: Global, out: &mut Vec<u8>) -> Result<(), AllocError> {
        put_i8(alloc, out, "", self)
    }
}

impl Json for i16 {
    ghost json = { signed_decimal };

    fn put_json(&self, alloc: Global, out: &mut Vec<u8>) -> Result<(), AllocError> {
        put_i16(alloc, out, "", self)
    }
}

impl Json for i32 {
    ghost json = { signed_decimal };

    fn put_json(&self, alloc: Global, out: &mut Vec<u8>) -> Result<(), AllocError> {
        put_i32(alloc, out, "", self)
    }
}

impl Json for i64 {
    ghost json = { signed_decimal };

    fn put_json(&self, alloc: Global, out: &mut Vec<u8>) -> Result<(), AllocError> {
        put_i64(alloc, out, "", self)
    }
}

impl Json for bool {
    ghost json = { texts.boolean };

    fn put_json(&self, alloc: Global, out: &mut Vec<u8>) -> Result<(), AllocError> {
        put_boolean(out, *self)
    }
}

impl Json for u128 {
    ghost json = { texts.base64_id };

    fn put_json(&self, alloc: Global, out: &mut Vec<u8>) -> Result<(), AllocError> {
        put_id(alloc, out, self)
    }
}

impl Json for Text {
    ghost json = { texts.string };

    fn put_json(&self, alloc: Global, out: &mut Vec<u8>) -> Result<(), AllocError> {
        put_string(out, self)
    }
}

impl Json for Option<Text> {
    ghost json = { texts.string_or_null };

    fn put_json(&self, alloc: Global, out: &mut Vec<u8>) -> Result<(), AllocError> {
        put_string_or_null(out, self)
    }
}
