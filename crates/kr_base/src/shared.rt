//! A value that many hold, and that none changes.

ghost use Rattle.std.specs.Prelude.{◌≡◌, IfErr, IfOk};

use std::alloc::{AllocError, AllocFailed, Global};
use std::marker::Model;
use std::sync::Arc;

/// A value that is held in several places at once, and freed with its last holder. A clause sees the value.
#[derive(Drop)]
pub struct Shared<T> {
    // The value, with the count of its holders.
    held: Arc<T, Global>,
}

impl<T> Model for Shared<T> {
    ghost use Rattle.std.specs.Arc.{arc_value};

    ghost Value = { T };

    ghost coded = { T.code };

    ghost view = { λ s. arc_value s.held };
}

impl<T> Shared<T> {
    /// Takes the value. It comes back where there is no memory.
    pub fn new(alloc: Global, value: T) -> Result<Shared<T>, AllocFailed<T>>
        ensures ok { IfOk result (λ shared. shared ≡ value) }
        ensures err { IfErr result (λ failed. failed.value ≡ value) }
    {
        match Arc::new(alloc, value) {
            Ok(held) => Ok(Shared { held }),
            Err(failed) => Err(failed),
        }
    }

    /// The value.
    pub fn get(&self) -> &T
        ensures { result.now ≡ self.now }
    {
        &self.held
    }

    /// One more holder of the same value. It takes no memory, and is refused only where as many hold it as can be
    /// counted.
    pub fn again(&self) -> Result<Shared<T>, AllocError>
        ensures { IfOk result (λ shared. shared ≡ self.now) }
    {
        Ok(Shared {
            held: Arc::try_clone(&self.held)?,
        })
    }
}
