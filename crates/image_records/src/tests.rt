// The shapes of tests: truth values joined, sums that need not fit, and zeros.
ghost use Rattle.std.specs.Prelude.{◌≡◌, ◌+◌, ◌*◌, ◌≤◌, leb};
ghost use Rattle.message.specs.Limits.{segment_bytes};
ghost use Rattle.image_records.specs.Shapes.{implies, within, up_to, all_zero};

use message::segments::segments_of;

pub fn implies(a: bool, b: bool) -> bool
    ensures { result ≡ implies a b }
{
    !a || b
}

pub fn within(least: u64, greatest: u64, n: u64) -> bool
    ensures { result ≡ within least greatest n }
{
    (least..=greatest).contains(&n)
}

// n, or the most where n is above it.
pub fn up_to(most: u64, n: u64) -> u64
    ensures { result ≡ up_to most n }
{
    n.min(most)
}

// Whether a is at most b + k, a sum that need not fit.
pub fn at_most_sum(a: u64, b: u64, k: u64) -> bool
    ensures { result ≡ leb a (b + k) }
{
    a.saturating_sub(k) <= b
}

// Whether n bytes are at most k whole segments, a product that need not fit.
pub fn at_most_segments(n: u64, k: u64) -> bool
    ensures { result ≡ leb n (segment_bytes * k) }
{
    segments_of(n) <= k
}

// Whether a + k is at most 2 * b, where neither need fit.
fn at_most_twice(a: u64, k: u64, b: u64) -> bool
    requires { k ≤ 16 }
    ensures { result ≡ leb (a + k) (2 * b) }
{
    a / 2 + (a % 2 + k + 1) / 2 <= b
}

// Whether a + k is at most 2 * b + s, where neither need fit.
pub fn at_most_twice_and(a: u64, k: u64, b: u64, s: u64) -> bool
    requires { k ≤ 16 }
    ensures { result ≡ leb (a + k) (2 * b + s) }
{
    if s <= a {
        return at_most_twice(a - s, k, b);
    }
    at_most_twice(0, k.saturating_sub(s - a), b)
}

// The greatest byte is 0. No way out of the loop, so that the compiler can take many bytes at once.
pub fn zero_bytes(s: &[u8]) -> bool
    ensures { result ≡ all_zero s.now }
{
    s.iter().fold(0, |most: u8, x| most.max(*x)) == 0
}

// The greatest number is 0.
pub fn zero_numbers(s: &[u64]) -> bool
    ensures { result ≡ all_zero s.now }
{
    s.iter().fold(0, |most: u64, x| most.max(*x)) == 0
}
