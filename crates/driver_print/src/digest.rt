// The digest of bytes.
ghost use Rattle.std.specs.Prelude.{◌≡◌};
ghost use Rattle.driver_print.specs.Line.{digest};

// The largest prime below 2 to the 32.
const MODULUS: u64 = 4294967291;

// The number that the bytes are, modulo that prime.
pub(crate) fn digest(bytes: &[u8]) -> u64
    ensures { result ≡ digest bytes.now }
{
    // No fold, whose closure would not know that x is below the prime, so that the sum fits.
    let mut x: u64 = 0;
    for b in bytes {
        x = (x * 256 + u64::from(*b)) % MODULUS;
    }
    x
}
