// Numbers high byte first, parts of a slice, and bytes written into a buffer.
ghost use Rattle.std.specs.Prelude.{◌≡◌, ◌++◌, ◌+◌, ◌*◌, ◌^◌, ◌≤◌, ◌<◌, length, take, drop};
ghost use Rattle.octets.specs.Bytes.{number, bytes_of, field_bytes, overwrite};

// The number that the first n bytes are, high byte first. Where n is a constant, the compiler makes the loop one load.
pub fn leading(s: &[u8], n: usize) -> u64
    requires { (n ≤ length s.now) × (n ≤ 8) }
    ensures { (result ≡ number (take n s.now)) × (result < 2 ^ (8 * n)) }
{
    number(&s[..n])
}

// The number that the bytes are, high byte first.
pub fn number(s: &[u8]) -> u64
    requires { length s.now ≤ 8 }
    ensures { (result ≡ number s.now) × (result < 2 ^ (8 * length s.now)) }
{
    let mut x = 0;
    for b in s {
        x = x * 256 + u64::from(*b);
    }
    x
}

// The first n bytes; all of them where there are fewer.
pub fn front(s: &[u8], n: usize) -> &[u8]
    ensures { result.now ≡ take n s.now }
{
    &s[..n.min(s.len())]
}

// What stands from a place on; nothing behind the end.
pub fn behind(s: &[u8], at: usize) -> &[u8]
    ensures { result.now ≡ drop at s.now }
{
    &s[at.min(s.len())..]
}

// What stands behind the first k pieces of this size; nothing where there are fewer.
pub fn behind_pieces(s: &[u8], k: u64, size: u64) -> &[u8]
    requires { 0 < size }
    ensures { result.now ≡ drop (k * size) s.now }
{
    behind(s, k.saturating_mul(size) as usize)
}

// The sixteen bytes of a number given as two of 64 bits, high byte first.
pub fn digits(high: u64, low: u64) -> [u8; 16]
    ensures { (result ≡ bytes_of 8 high ++ bytes_of 8 low) × (low < 2 ^ 64) }
{
    (u128::from(high) * (1 << 64) + u128::from(low)).to_be_bytes()
}

// Writes src over dst from a place on: byte by byte, since the compiler leaves such bytes out where nobody reads them,
// as the marker's replies, and does not leave out those of `copy_from_slice`.
pub fn copy(dst: &mut [u8], at: usize, src: &[u8])
    requires { at + length src.now ≤ length dst.old }
    ensures { dst.new ≡ overwrite dst.old at src.now }
{
    for i in 0..src.len() {
        dst[at + i] = src[i];
    }
}

// Writes the field with this content over dst from a place on.
pub fn put_field(dst: &mut [u8], at: usize, tag: u8, content: &[u8])
    requires { (at + (3 + length content.now) ≤ length dst.old) × (length content.now < 65536) }
    ensures { dst.new ≡ overwrite dst.old at (field_bytes tag content.now) }
{
    let [high, low] = (content.len() as u16).to_be_bytes();
    copy(dst, at, &[tag, high, low]);
    copy(dst, at + 3, content);
}
