// An order place and an open download, as they are taken out of the bank's rows and put back. The bank as a whole is
// the record `Bank` of specs/State.antt.
ghost use Rattle.std.specs.Prelude.{◌≡◌};
ghost use Rattle.bank_state.specs.State.{no_place};

use frame_table::fields::Bits128;

// What an order place is used for.
#[derive(Clone, Copy)]
pub enum Use {
    Free,
    Open,
    Booked,
}

// An order place: an open upload or a booked order. `number` is its order number in its series, `taken` counts its
// segments taken, `last` is the clock at its last fitting request, `length` counts its bytes; `signers` is the set of a
// booked order's signers, of which subscriber s is the bit of value 2 to the power s - 1, and 0 of any other place.
#[derive(Clone, Copy)]
pub struct Place {
    pub used: Use,
    pub transaction: Bits128,
    pub subscriber: u64,
    pub number: u64,
    pub segments: u64,
    pub taken: u64,
    pub attempts: u64,
    pub last: u64,
    pub length: u64,
    pub signers: u64,
}

// An open download of its subscriber's mailbox.
#[derive(Clone, Copy)]
pub struct Download {
    pub used: bool,
    pub transaction: Bits128,
    pub subscriber: u64,
    pub delivered: u64,
    pub attempts: u64,
    pub last: u64,
}

// What is free is zero.
const NO_BITS: Bits128 = Bits128 { high: 0, low: 0 };

pub fn no_place() -> Place
    ensures { result ≡ no_place }
{
    Place {
        used: Use::Free,
        transaction: NO_BITS,
        subscriber: 0,
        number: 0,
        segments: 0,
        taken: 0,
        attempts: 0,
        last: 0,
        length: 0,
        signers: 0,
    }
}
