// "the 32-bit generator of Marsaglia (shifts left 13, right 17, left 5, each exclusive-or'd in)".
ghost use Rattle.std.specs.Prelude.{◌≡◌};
ghost use Rattle.line.specs.Generator.{moved};

// The values of 32 bits are below this one.
pub(crate) const VALUE_LIMIT: u64 = 4294967296;

// One move.
#[tactic(auto, unfolding(crate::specs::Generator::left_xor, crate::specs::Generator::right_xor, crate::specs::Generator::moved))]
pub fn moved(x: u32) -> u32
    ensures { result ≡ moved x }
{
    let a = x ^ (x << 13);
    let b = a ^ (a >> 17);
    b ^ (b << 5)
}
