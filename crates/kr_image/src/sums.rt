//! Sums that stop at a limit.

ghost use Rattle.std.specs.Prelude.{◌≡◌, ◌≤◌, ◌<◌, ◌+◌, IfSome, IsNone};

/// The sum, where it isn't above the greatest.
pub(crate) fn added_within(greatest: usize, total: usize, more: usize) -> Option<usize>
    requires { total ≤ greatest }
    ensures some { IfSome result (λ sum. (sum ≡ total + more) × (sum ≤ greatest)) }
    ensures none { IsNone result → greatest < total + more }
{
    if more <= greatest - total {
        Some(total + more)
    } else {
        None
    }
}
