//! Brokers with their racks.

ghost use Rattle.std.specs.Prelude.{◌≡◌, ◌==◌, [], ◌∷◌, ◌++◌, false, length, map, OnOk, OnErr};
ghost use Rattle.std.specs.List.{list_any, IsDistinct};
ghost use Rattle.std.specs.Ordering.{int_eq};

use kr_base::NoMemory;
use kr_defs::Text;
use std::alloc::Global;
use std::marker::Model;

/// A list of brokers, each with the name of its rack, if it has one. No broker stands in it twice.
#[derive(Debug, Drop)]
pub struct Racked {
    // The brokers, in the order of naming.
    list: Vec<(i32, Option<Text>)>,
}

impl Model for Racked {
    ghost use Rattle.std.specs.Prelude.{List, ℤ, map, Option, ℕ};
    ghost use Rattle.std.specs.List.{IsDistinct};
    ghost use Rattle.std.specs.Ordering.{int_eq};
    ghost use Rattle.kr_defs.specs.Placed.{Rack};

    ghost Value = { List (ℤ × Rack) };

    ghost view = { λ r. r.list.items };

    ghost invariant = { λ r. IsDistinct int_eq (map (λ broker. broker.0) r.list.items) };
}

impl Racked {
    /// No brokers.
    pub fn new(alloc: Global) -> Racked
        ensures { result ≡ [] }
    {
        Racked {
            list: Vec::new(alloc),
        }
    }

    /// The brokers in the order of naming.
    pub fn as_slice(&self) -> &[(i32, Option<Text>)]
        ensures value { result.now ≡ self.now }
        ensures distinct { IsDistinct int_eq (map (λ broker. broker.0) self.now) }
    {
        self.list.as_slice()
    }

    /// How many brokers there are.
    pub fn len(&self) -> usize
        ensures { result ≡ length self.now }
    {
        self.list.len()
    }

    /// No broker is there.
    pub fn is_empty(&self) -> bool
        ensures { result ≡ (length self.now == 0) }
    {
        self.list.is_empty()
    }

    /// Whether the broker is named.
    pub fn contains(&self, id: &i32) -> bool
        ensures { result ≡ list_any (λ broker. int_eq id.now broker.0) self.now }
    {
        self.list.iter().any(|broker| *id == broker.0)
    }

    /// Names a broker that isn't named yet.
    pub fn push(&mut self, id: i32, rack: Option<Text>) -> Result<(), NoMemory>
        requires { list_any (λ broker. int_eq id broker.0) self.old ≡ false }
        ensures ok { OnOk result (self.new ≡ self.old ++ (id, rack) ∷ []) }
        ensures err { OnErr result (self.new ≡ self.old) }
    {
        self.list.push((id, rack))?;
        Ok(())
    }
}
