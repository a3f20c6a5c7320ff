//! A list of values that contracts see as a list.

ghost use Rattle.std.specs.Prelude.{◌≡◌, ◌==◌, [], ◌∷◌, ◌++◌, length, OnOk, OnErr, Contains, IsTrue, ◌↔◌};
ghost use Rattle.std.specs.List.{list_any};
ghost use Rattle.std.specs.Ordering.{int_eq};
ghost use Rattle.std.specs.Cmp.Lexicographic.{pointwise, lists_per, lists_equiv};

use crate::{Copied, Item, Record, Text};
use std::alloc::{AllocError, Global};
use std::marker::Model;

/// A list of values, in order.
#[derive(Debug, Drop)]
pub struct Rows<T> {
    // The values.
    list: Vec<T>,
}

/// Ids of brokers.
pub type Ids = Rows<i32>;

/// Bytes, which need not be text.
pub type Bytes = Rows<u8>;

/// A list of texts.
pub type Texts = Rows<Text>;

/// What stands at the places of a log, in order.
pub type Items = Rows<Item>;

/// A list of records, in order.
pub type Records = Rows<Record>;

impl<T> Model for Rows<T> {
    ghost use Rattle.std.specs.Prelude.{List};
    ghost use Rattle.std.specs.Coded.{coded_list};

    ghost Value = { List T };

    ghost coded = { coded_list T.code };

    ghost view = { λ s. s.list.items };
}

impl<T> Rows<T> {
    /// An empty list, which takes no memory.
    pub fn new(alloc: Global) -> Rows<T>
        ensures { result ≡ [] }
    {
        Rows {
            list: Vec::new(alloc),
        }
    }

    /// The list of a vector's items.
    pub fn from_vec(list: Vec<T>) -> Rows<T>
        ensures { result ≡ list.items }
    {
        Rows { list }
    }

    /// The items as a vector.
    pub fn into_vec(self) -> Vec<T>
        ensures { result.items ≡ self }
    {
        self.list
    }

    /// The items.
    pub fn as_slice(&self) -> &[T]
        ensures { result.now ≡ self.now }
    {
        self.list.as_slice()
    }

    /// How many items there are.
    pub fn len(&self) -> usize
        ensures { result ≡ length self.now }
    {
        self.list.len()
    }

    /// There is no item.
    pub fn is_empty(&self) -> bool
        ensures { result ≡ (length self.now == 0) }
    {
        self.list.is_empty()
    }
}

impl<T: Drop> Rows<T> {
    /// Adds an item at the end. Without memory nothing changes.
    pub fn push(&mut self, item: T) -> Result<(), AllocError>
        ensures ok { OnOk result (self.new ≡ self.old ++ item ∷ []) }
        ensures err { OnErr result (self.new ≡ self.old) }
    {
        self.list.push(item)?;
        Ok(())
    }
}

impl Rows<i32> {
    /// The lists have the same ids in the same order.
    pub fn same(&self, other: &Rows<i32>) -> bool
        ensures { IsTrue result ↔ (self.now ≡ other.now) }
    {
        self.list == other.list
    }

    /// The id stands in the list.
    pub fn contains(&self, id: &i32) -> bool
        ensures value { result ≡ list_any (λ x. int_eq x id.now) self.now }
        ensures member { IsTrue result ↔ Contains self.now id.now }
    {
        self.list.contains(id)
    }
}

impl<T: Copied + Drop> Copied for Rows<T> {
    fn copied(&self, alloc: Global) -> Result<Rows<T>, AllocError> {
        let mut copy = Rows::new(alloc);
        for value in self.as_slice() {
            copy.push(value.copied(alloc)?)?;
        }
        Ok(copy)
    }
}

impl<T: PartialEq> PartialEq for Rows<T> {
    ghost eq = { pointwise T.eq };

    ghost laws = { lists_per T.laws };

    fn eq(&self, other: &Rows<T>) -> bool {
        self.list == other.list
    }
}

impl<T: Eq> Eq for Rows<T> {
    ghost laws = { lists_equiv T.Eq.laws };
}
