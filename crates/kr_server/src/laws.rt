//! What holds of the pages of all connections. Each function says so in its contract, and does nothing.

ghost use Rattle.kr_server.specs.Walks.{NeighboursGoOn, WalksJoin};

use kr_defs::laws::empty_is_valid;

/// A page that goes on from the one before is of the same place, unless the pin was lost. Where none is lost, the pages of a walk
/// are of the image at one place, and joined they are all lines there.
pub fn walks_are_of_one_place()
    ensures neighbours { NeighboursGoOn }
    ensures walks { WalksJoin }
{
    empty_is_valid();
}
