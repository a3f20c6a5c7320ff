//! What holds of all bytes and of all values: of each primitive the bytes that stand for a value, the
//! bytes that are read as it and the bytes that are written for it are the same, and no bytes stand
//! for two values. These functions do nothing.

ghost use Rattle.std.specs.Prelude.{◌≡◌, ◌+◌, ◌*◌, ◌^◌, ◌<◌, ◌≤◌, ℕ, ℤ, Bool, List, length, cond, nat_lt, FitsSigned};
ghost use Rattle.std.specs.Int.{w16, w32, w64, w8};
ghost use Rattle.kr_wire.specs.Grammar.{IsBool, IsId, IsList, IsListOrNull, IsNumber, IsSigned, IsText, IsTextOrNull, IsUvarint, IsVarint32, IsVarint64, NoTags};
ghost use Rattle.kr_wire.specs.Laws.{IsPrimitive, IsShortList, IsShortListOrNull, IsShortText, IsShortTextOrNull, Law};
ghost use Rattle.kr_wire.specs.Reading.{bool_at, id_at, list_at, list_or_null_at, none_known, number_at, signed_at, tags_at, text_at, text_or_null_at, uvarint_at, varint32_at, varint64_at};
ghost use Rattle.kr_wire.specs.Spelling.{bool, count, groups, id, list, list_or_null, number, signed, text, text_or_null, uvarint, varint32, varint64};

/// Numbers of a fixed length.
pub fn numbers()
    ensures u16 { IsPrimitive (IsNumber w16) (number_at w16) (number w16) (λ n. n < 2 ^ 16) }
    ensures u32 { IsPrimitive (IsNumber w32) (number_at w32) (number w32) (λ n. n < 2 ^ 32) }
    ensures u64 { IsPrimitive (IsNumber w64) (number_at w64) (number w64) (λ n. n < 2 ^ 64) }
    ensures i8 { IsPrimitive (IsSigned w8) (signed_at w8) (signed w8) (FitsSigned w8) }
    ensures i16 { IsPrimitive (IsSigned w16) (signed_at w16) (signed w16) (FitsSigned w16) }
    ensures i32 { IsPrimitive (IsSigned w32) (signed_at w32) (signed w32) (FitsSigned w32) }
    ensures i64 { IsPrimitive (IsSigned w64) (signed_at w64) (signed w64) (FitsSigned w64) }
    ensures id { IsPrimitive IsId id_at id (λ n. n < 2 ^ 128) }
    ensures bool { IsPrimitive IsBool bool_at bool (λ b. Unit {0}) }
{}

/// Numbers in groups of seven bits.
pub fn varints()
    ensures uvarint { IsPrimitive IsUvarint uvarint_at uvarint (λ n. n < 2 ^ 32) }
    ensures varint { IsPrimitive IsVarint32 varint32_at varint32 (FitsSigned w32) }
    ensures varlong { IsPrimitive IsVarint64 varint64_at varint64 (FitsSigned w64) }
{}

/// Texts, and texts or null.
pub fn texts()
    ensures text { IsPrimitive IsText text_at text IsShortText }
    ensures text_or_null { IsPrimitive IsTextOrNull text_or_null_at text_or_null IsShortTextOrNull }
{}

/// Lists of the two elements that records have most.
pub fn lists()
    ensures ids { IsPrimitive (IsList IsId) (list_at id_at) (list id) (IsShortList (λ n. n < 2 ^ 128)) }
    ensures numbers { IsPrimitive (IsList (IsSigned w32)) (list_at (signed_at w32)) (list (signed w32)) (IsShortList (FitsSigned w32)) }
    ensures numbers_or_null { IsPrimitive (IsListOrNull (IsSigned w32)) (list_or_null_at (signed_at w32)) (list_or_null (signed w32)) (IsShortListOrNull (FitsSigned w32)) }
{}

/// Tagged fields of which none is known.
pub fn tags()
    ensures { Law (λ nothing. NoTags) (tags_at none_known tt) }
{}

/// How many bytes are written.
pub fn lengths()
    ensures numbers { (n : ℕ) → (length (number w16 n) ≡ 2) × (length (number w32 n) ≡ 4) × (length (number w64 n) ≡ 8) }
    ensures signed { (n : ℤ) → (length (signed w8 n) ≡ 1) × (length (signed w16 n) ≡ 2) × (length (signed w32 n) ≡ 4) × (length (signed w64 n) ≡ 8) }
    ensures id { (n : ℕ) → length (id n) ≡ 16 }
    ensures bool { (b : Bool) → length (bool b) ≡ 1 }
    ensures groups { (room n : ℕ) → length (groups room n) ≤ room + 1 }
    ensures uvarint { (n : ℕ) → n < 2 ^ 32
        → length (uvarint n) ≡ cond (nat_lt n 128) 1 (cond (nat_lt n 16384) 2 (cond (nat_lt n 2097152) 3 (cond (nat_lt n 268435456) 4 5))) }
    ensures text { (bytes : List ℕ) → length (text bytes) ≡ length (uvarint (length bytes + 1)) + length bytes }
    ensures list { (ids : List ℤ) → length (list (signed w32) ids) ≡ length (count (length ids)) + 4 * length ids }
{}
