// A record of the input: time, frame length, frame.
ghost use Rattle.std.specs.Prelude.{◌≡◌, ◌≤◌, length};
ghost use Rattle.marker_session.specs.Lines.{head_bytes, time_of, size_of, frame_in, is_whole};

use octets::bytes::{front, number};

// The bytes of a record's time, as many as a timestamp has.
const TIME_BYTES: usize = 8;

// The bytes of a record before its frame.
pub const HEAD_BYTES: usize = TIME_BYTES + 2;

// The time of the record at the front.
pub(crate) fn time_of(s: &[u8]) -> u64
    requires { head_bytes ≤ length s.now }
    ensures { result ≡ time_of s.now }
{
    number(&s[..TIME_BYTES])
}

// The frame length of the record at the front.
pub(crate) fn size_of(s: &[u8]) -> usize
    requires { head_bytes ≤ length s.now }
    ensures { result ≡ size_of s.now }
{
    number(&s[TIME_BYTES..HEAD_BYTES]) as usize
}

// The frame of the record at the front.
pub(crate) fn frame_in(s: &[u8]) -> &[u8]
    requires { head_bytes ≤ length s.now }
    ensures { result.now ≡ frame_in s.now }
{
    front(&s[HEAD_BYTES..], size_of(s))
}

// Whether the record at the front is not cut short.
pub(crate) fn is_whole(s: &[u8]) -> bool
    ensures { result ≡ is_whole s.now }
{
    s.len() >= HEAD_BYTES && size_of(s) <= s.len() - HEAD_BYTES
}
