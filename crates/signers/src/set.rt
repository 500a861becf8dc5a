// A set of subscribers as bits of a u8: subscriber 1 is the lowest bit, subscriber 8 the highest.
ghost use Rattle.std.specs.Prelude.{◌≡◌};
ghost use Rattle.signers.specs.Signers.{has_bit, is_signer, with_signer, signer_count, is_released};

// The bits, one for each subscriber.
const BIT_COUNT: u64 = 8;

// As many signers release an order.
const RELEASING: u32 = 2;

// Whether a subscriber has a bit.
#[tactic(auto, unfolding(crate::specs::Signers::has_bit))]
fn has_bit(subscriber: u64) -> bool
    ensures { result ≡ has_bit subscriber }
{
    (1..=BIT_COUNT).contains(&subscriber)
}

// Whether the subscriber is a signer.
#[tactic(auto, unfolding(crate::specs::Signers::is_signer))]
pub fn is_signer(set: u8, subscriber: u64) -> bool
    ensures { result ≡ is_signer subscriber set }
{
    has_bit(subscriber) && (set >> (subscriber - 1)) % 2 == 1
}

// The set with the subscriber in it: by a sum, as the definition has it, since the bit is not set there.
pub fn with_signer(set: u8, subscriber: u64) -> u8
    ensures { result ≡ with_signer subscriber set }
{
    if has_bit(subscriber) && !is_signer(set, subscriber) {
        set + (1 << (subscriber - 1))
    } else {
        set
    }
}

// How many signers the set has: the ones of the number.
pub fn count(set: u8) -> u32
    ensures { result ≡ signer_count set }
{
    set.count_ones()
}

// Whether the signers release the order.
#[tactic(auto, unfolding(crate::specs::Signers::is_released))]
pub fn is_released(set: u8) -> bool
    ensures { result ≡ is_released set }
{
    count(set) >= RELEASING
}
