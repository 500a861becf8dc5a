// The numbers of documents 01 and 02, a row each, and the refusals that have one number alone. Each number has the same
// name in specs/Table.antt, beside the papers' words.
ghost use Rattle.std.specs.Prelude.{◌≡◌};
ghost use Rattle.number_table.specs.Table.{wrong_length, too_late};

// The host.
pub const WRONG_LENGTH: u64 = 1;

pub const NO_MAILBOX: u64 = 2;

pub const WRONG_FILE: u64 = 3;

pub const MAILBOX_FULL: u64 = 4;

// The client's owner.
pub const WRONG_BUFFER: u64 = 5;

pub const EXCHANGE_TOO_HIGH: u64 = 6;

pub const NO_SUBSCRIBER: u64 = 7;

pub const WRONG_STAGE: u64 = 8;

// The cards.
pub const NOT_ADMITTED: u64 = 9;

pub const TOO_LATE: u64 = 10;

pub const SEED_ZERO: u64 = 11;

// Number 1, where a call is refused with no other.
#[derive(Clone, Copy, Debug, PartialEq, Eq)]
pub struct WrongLength;

impl From<WrongLength> for u64 {
    ghost from_gives = { λ _ n. n ≡ wrong_length };

    fn from(_: WrongLength) -> u64 {
        WRONG_LENGTH
    }
}

// Number 10, where a call is refused with no other.
#[derive(Clone, Copy, Debug, PartialEq, Eq)]
pub struct TooLate;

impl From<TooLate> for u64 {
    ghost from_gives = { λ _ n. n ≡ too_late };

    fn from(_: TooLate) -> u64 {
        TOO_LATE
    }
}
