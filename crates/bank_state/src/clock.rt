// What is behind the clock, and which downloads end; what ends is said in specs/Clock.antt.
ghost use Rattle.std.specs.Prelude.{◌≡◌};
ghost use Rattle.bank_state.specs.Clock.{is_behind};

use frame_table::fields::Bits128;

// Which downloads end: those idle at this clock, every download of a mailbox, or one transaction.
#[derive(Clone, Copy)]
pub enum Ended {
    Idle(u64),
    Mailbox(u64),
    Transaction(u64, Bits128),
}

// Whether a time is more than this many milliseconds behind the clock.
pub fn is_behind(clock: u64, time: u64, limit: u64) -> bool
    ensures { result ≡ is_behind clock time limit }
{
    limit <= clock && time < clock - limit
}
