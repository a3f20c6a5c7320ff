//! The numbers that are drawn, and what they choose for a round.

ghost use Rattle.std.specs.Prelude.{◌≡◌, ◌<◌, ◌≤◌};
ghost use Rattle.kr_workload.specs.Chances as drawing;

/// What is drawn for a round.
#[derive(Clone, Copy, Debug, Drop, PartialEq, Eq)]
pub(crate) struct Chances {
    /// What is done, 0 to 5.
    pub(crate) kind: u64,
    /// The broker, 1 to 6.
    pub(crate) broker: u16,
    /// The topic's number, 0 to 299.
    pub(crate) topic: u64,
    /// The partition's index, 0 to 9.
    pub(crate) partition: u32,
    /// The number that the next one is made of.
    pub(crate) last: u64,
}

/// The number behind this one.
#[tactic(auto, unfolding(crate::specs::Chances::next_drawn))]
pub fn next_drawn(x: u64) -> u64
    ensures { result ≡ drawing.next_drawn x }
{
    x.wrapping_mul(6364136223846793005)
        .wrapping_add(1442695040888963407)
}

/// Of a number its upper half, below the given one.
#[tactic(auto, unfolding(crate::specs::Chances::drawn_below))]
pub fn drawn_below(x: u64, most: u64) -> u64
    requires { 0 < most }
    ensures value { result ≡ drawing.drawn_below x most }
    ensures less { result < most }
{
    x / 4294967296 % most
}

/// Draws for a round, behind this number.
#[tactic(auto, unfolding(crate::specs::Chances::chances))]
pub(crate) fn draw_round(x: u64) -> Chances
    ensures chances { result ≡ drawing.chances x }
    ensures broker { result.broker ≤ 6 }
    ensures partition { result.partition ≤ 9 }
{
    let first = next_drawn(x);
    let second = next_drawn(first);
    let third = next_drawn(second);
    let fourth = next_drawn(third);
    Chances {
        kind: drawn_below(first, 6),
        broker: 1 + drawn_below(second, 6) as u16,
        topic: drawn_below(third, 300),
        partition: drawn_below(fourth, 10) as u32,
        last: fourth,
    }
}
