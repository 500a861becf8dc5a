// Files and payloads in segments.
ghost use Rattle.std.specs.Prelude.{◌≡◌, ◌+◌, eqb};
ghost use Rattle.message.specs.Segments.{segments_of, segment_of, last_mark_of};

use crate::limits::{SEGMENT_BYTES, SEGMENT_SIZE};
use octets::bytes::{behind_pieces, front};

// The number of segments of n bytes.
#[tactic(auto, unfolding(crate::specs::Segments::segments_of))]
pub fn segments_of(n: u64) -> u64
    ensures { result ≡ segments_of n }
{
    n.div_ceil(SEGMENT_SIZE)
}

// Segment s, from 1 on: that part of the bytes itself, empty behind their end.
#[tactic(auto, unfolding(crate::specs::Segments::segment_of))]
pub fn segment_of(file: &[u8], s: u64) -> &[u8]
    ensures { result.now ≡ segment_of file.now s }
{
    front(
        behind_pieces(file, s.saturating_sub(1), SEGMENT_SIZE),
        SEGMENT_BYTES,
    )
}

// The last mark of segment s of n.
pub fn last_mark_of(s: u64, n: u64) -> u64
    ensures { result ≡ last_mark_of s n }
{
    u64::from(s == n)
}

// Whether the segment is the one behind the first `count`.
pub fn is_next(segment: u64, count: u64) -> bool
    ensures { result ≡ eqb segment (count + 1) }
{
    segment != 0 && segment - 1 == count
}
