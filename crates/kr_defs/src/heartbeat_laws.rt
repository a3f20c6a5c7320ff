//! Laws of the brokers whose heartbeats a controller has. Each function's contract is the law.

ghost use Rattle.std.specs.Prelude.{ℤ};
ghost use Rattle.kr_defs.specs.Heartbeats.{Heartbeats, AreHeartbeats, end};
ghost use Rattle.kr_defs.specs.HeartbeatLaws.{BeginningsStand, BeatsStand, LeavingStands, StoppingStands, Leaves, Beats, TheOldExpire};

/// Brokers stay distinct, times never fall, and stopping brokers are contacts.
pub fn heartbeats_stand()
    ensures begin { BeginningsStand }
    ensures end { AreHeartbeats end }
    ensures beat { BeatsStand }
    ensures leave { LeavingStands }
    ensures stop { StoppingStands }
{}

/// Who leaves is in neither list; who beats is a contact with the reported offset. The others stay.
pub fn others_stay()
    ensures leave { (h : Heartbeats) (broker id : ℤ) → Leaves h broker id }
    ensures beat { (h : Heartbeats) (broker now offset id : ℤ) → Beats h broker now offset id }
{}

/// Where the times never fall, who has expired is who was heard of at the limit or before.
pub fn the_old_expire()
    ensures { TheOldExpire }
{}
