// Numbers of a given length: read at a place, written at a place, and whether a number has it.
ghost use Rattle.std.specs.Prelude.{◌≡◌, ◌+◌, ◌^◌, ◌≤◌, ltb, length, take, drop};
ghost use Rattle.octets.specs.Bytes.{number, bytes_of, overwrite};

use octets::bytes::number;

// The number of w bytes from a place on, high byte first.
pub fn number_at(s: &[u8], at: usize, w: usize) -> u64
    requires { (w ≤ 8) × (at + w ≤ length s.now) }
    ensures { result ≡ number (take w (drop at s.now)) }
{
    number(&s[at..at + w])
}

// Writes the w bytes of x from a place on, the last byte first.
pub fn put_number(out: &mut [u8], at: usize, w: usize, x: u64)
    requires { at + w ≤ length out.old }
    ensures { out.new ≡ overwrite out.old at (bytes_of w x) }
{
    let mut rest = x;
    for i in (0..w).rev() {
        out[at + i] = (rest % 256) as u8;
        rest /= 256;
    }
}

// Whether x is a number of w bytes.
pub fn fits_width(w: usize, x: u64) -> bool
    ensures { result ≡ ltb x (256 ^ w) }
{
    w >= 8 || x < 1 << (8 * w)
}
