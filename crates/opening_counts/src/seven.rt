// The seven counts of the accepted openings, signings aside, in document 02's order, and whether each can grow.
ghost use Rattle.std.specs.Prelude.{◌≡◌};
ghost use Rattle.opening_counts.specs.Counts.{fits, can_grow};

use bank_state::limits::PLACE_COUNT;

// Open; booked; fetched, by 011000; skipped, by 011001; ended by another receipt; cancelled; dropped.
#[derive(Clone, Copy)]
pub struct Counts {
    pub pending: u64,
    pub booked: u64,
    pub fetched: u64,
    pub skipped: u64,
    pub ended: u64,
    pub cancelled: u64,
    pub dropped: u64,
}

// How many they are.
pub const COUNT_SIZE: usize = 7;

// The most that one call moves: all uploads and all downloads that can be open.
pub const MOST_MOVED: usize = PLACE_COUNT + PLACE_COUNT;

// Whether 64 bits hold a count and what one call adds.
#[tactic(auto, unfolding(crate::specs::Counts::fits))]
fn fits(n: u64) -> bool
    ensures { result ≡ fits n }
{
    n.checked_add(MOST_MOVED as u64).is_some()
}

// Whether each count can grow by what one call adds.
#[tactic(auto, unfolding(crate::specs::Counts::can_grow))]
pub fn can_grow(c: Counts) -> bool
    ensures { result ≡ can_grow c }
{
    fits(c.pending)
        && fits(c.booked)
        && fits(c.fetched)
        && fits(c.skipped)
        && fits(c.ended)
        && fits(c.cancelled)
        && fits(c.dropped)
}
