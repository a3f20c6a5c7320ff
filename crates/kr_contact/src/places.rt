//! The places of a block's values, which raw pointers name. No other file follows a pointer.

ghost use Rattle.std.specs.Prelude.{◌≡◌, ◌<◌, slice_index_or, vec_len};
ghost use Rattle.std.specs.Borrow.{sem};
ghost use Rattle.std.specs.Mem.{type_size};
ghost use Rattle.std.specs.Vec.{vec_ptr, vec_follows_item};
ghost use Rattle.kr_contact.specs.Places.{index_at, IsPlace, IsPlaceOf};

use std::alloc::Allocator;

// Where the value of that index lies. The first one lies at `first`.
pub(crate) fn place<T, A: Allocator>(_block: &Vec<T, A>, first: *mut T, index: usize) -> *mut T
    requires { (first ≡ vec_ptr _block.now) × (index < vec_len _block.now) × (0 < type_size T.row) }
    ensures { IsPlaceOf T.row (vec_ptr _block.now) (vec_len _block.now) result index }
{
    unsafe { first.add(index) }
}

// The value that lies there.
pub(crate) fn at<T, A: Allocator>(block: &Vec<T, A>, place: *mut T) -> &T
    requires { IsPlace T.row (vec_ptr block.now) (vec_len block.now) place }
    ensures { result.now ≡ slice_index_or block.now.items (index_at T.row (vec_ptr block.now) place) result.now }
{
    unsafe { &*place }
}

// The value that lies there, to be written.
pub(crate) fn at_mut<T, A: Allocator>(block: &mut Vec<T, A>, place: *mut T) -> &mut T
    requires { IsPlace T.row (vec_ptr block.old) (vec_len block.old) place }
    ensures* writes_back { sem 𝓛 (vec_follows_item T.row A.row A.Allocator block.entry (index_at T.row (vec_ptr block.old) place) result) }
    ensures value { result.now ≡ slice_index_or block.old.items (index_at T.row (vec_ptr block.old) place) result.now }
{
    unsafe { &mut *place }
}
