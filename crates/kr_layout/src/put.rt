//! Values to bytes.

ghost use Rattle.std.specs.Prelude.{◌≡◌, OnOk, OnErr};
ghost use Rattle.kr_layout.specs.Answers.{Begins, Puts};
ghost use Rattle.kr_wire.specs.Schema as schemas;
ghost use Rattle.kr_wire.specs.Laws.{IsWritten};
ghost use Rattle.kr_wire.specs.Schema.{Fits, Is, Schema, written};

use kr_base::NoMemory;
use kr_defs::{Rows, Text};
use kr_wire::{
    put_bool, put_count, put_i8, put_i16, put_i32, put_i64, put_id, put_null, put_str, put_u16,
    put_uvarint,
};

/// A type whose values are written.
pub trait Put<M> {
    ghost schema: { Schema Self };

    /// Appends what is written for the value. Without memory, which a text or a list of 2^31 or more wants too, some
    /// of it may stand behind what there was.
    fn put_parts(&self, mine: &M, out: &mut Vec<u8>) -> Result<(), NoMemory>
        ensures ok { OnOk result (Puts schema self.now out.old.items out.new.items) }
        ensures err { OnErr result (Begins out.old.items out.new.items) };

    /// Appends what is written for the value. Without memory, which a text or a list of 2^31 or more wants too, nothing
    /// is appended.
    fn put(&self, mine: &M, out: &mut Vec<u8>) -> Result<(), NoMemory>
        ensures ok { OnOk result (Puts schema self.now out.old.items out.new.items) }
        ensures err { OnErr result (out.new.items ≡ out.old.items) }
    {
        let before = out.len();
        let put = self.put_parts(mine, out);
        if put.is_err() {
            out.truncate(before);
        }
        put
    }
}

impl<M> Put<M> for i8 {
    ghost schema = { schemas.Int8 };

    fn put_parts(&self, mine: &M, out: &mut Vec<u8>) -> Result<(), NoMemory> {
        put_i8(out, *self)?;
        Ok(())
    }
}

impl<M> Put<M> for i16 {
    ghost schema = { schemas.Int16 };

    fn put_parts(&self, mine: &M, out: &mut Vec<u8>) -> Result<(), NoMemory> {
        put_i16(out, *self)?;
        Ok(())
    }
}

impl<M> Put<M> for i32 {
    ghost schema = { schemas.Int32 };

    fn put_parts(&self, mine: &M, out: &mut Vec<u8>) -> Result<(), NoMemory> {
        put_i32(out, *self)?;
        Ok(())
    }
}

impl<M> Put<M> for i64 {
    ghost schema = { schemas.Int64 };

    fn put_parts(&self, mine: &M, out: &mut Vec<u8>) -> Result<(), NoMemory> {
        put_i64(out, *self)?;
        Ok(())
    }
}

impl<M> Put<M> for u16 {
    ghost schema = { schemas.Uint16 };

    fn put_parts(&self, mine: &M, out: &mut Vec<u8>) -> Result<(), NoMemory> {
        put_u16(out, *self)?;
        Ok(())
    }
}

impl<M> Put<M> for u128 {
    ghost schema = { schemas.Uuid };

    fn put_parts(&self, mine: &M, out: &mut Vec<u8>) -> Result<(), NoMemory> {
        put_id(out, *self)?;
        Ok(())
    }
}

impl<M> Put<M> for bool {
    ghost schema = { schemas.Boolean };

    fn put_parts(&self, mine: &M, out: &mut Vec<u8>) -> Result<(), NoMemory> {
        put_bool(out, *self)?;
        Ok(())
    }
}

impl<M> Put<M> for Text {
    ghost schema = { schemas.Text };

    fn put_parts(&self, mine: &M, out: &mut Vec<u8>) -> Result<(), NoMemory> {
        let _text = self.as_bytes();
        let text = self.as_str();
        if text.len() >= 1 << 31 {
            return Err(NoMemory);
        }
        put_str(out, text)?;
        Ok(())
    }
}

impl<M> Put<M> for Option<Text> {
    ghost schema = { schemas.TextOrNull };

    fn put_parts(&self, mine: &M, out: &mut Vec<u8>) -> Result<(), NoMemory> {
        match self {
            None => {
                put_null(out)?;
                Ok(())
            }
            Some(text) => Put::put_parts(text, mine, out),
        }
    }
}

impl<M, T: Put<M>> Put<M> for Rows<T> {
    ghost schema = { schemas.Array T.schema };

    fn put_parts(&self, mine: &M, out: &mut Vec<u8>) -> Result<(), NoMemory> {
        let values = self.as_slice();
        if values.len() >= 1 << 31 {
            return Err(NoMemory);
        }
        put_count(out, values.len() as u32)?;
        for value in values {
            value.put(mine, out)?;
        }
        Ok(())
    }
}

impl<M, T: Put<M>> Put<M> for Option<Rows<T>> {
    ghost schema = { schemas.ArrayOrNull T.schema };

    fn put_parts(&self, mine: &M, out: &mut Vec<u8>) -> Result<(), NoMemory> {
        match self {
            None => {
                put_null(out)?;
                Ok(())
            }
            Some(list) => list.put_parts(mine, out),
        }
    }
}

/// Tagged fields of which there is none. Without memory nothing is appended.
#[tactic(auto, unfolding(kr_wire::specs::Spelling::uvarint))]
pub fn put_end(out: &mut Vec<u8>) -> Result<(), NoMemory>
    ensures ok { OnOk result (Puts schemas.End tt out.old.items out.new.items) }
    ensures err { OnErr result (out.new.items ≡ out.old.items) }
{
    put_uvarint(out, 0)?;
    Ok(())
}

/// The laws of what is written by a layout: it stands for its value and for no other, whatever follows, and no other value
/// is written so. This function does nothing.
pub fn written_forms<M, T: Put<M>>()
    ensures { IsWritten (Is T.schema) (written T.schema) (Fits T.schema) }
{}
