// Where the numbers of a session stand in its rows. Each has the same name in specs/Session.antt.
use bank_rows::layout::STATE_SIZE;
use opening_counts::seven::COUNT_SIZE;

// The events entered so far, behind the bank's numbers.
pub const EVENTS_AT: usize = STATE_SIZE;

// The seven counts, behind the number of events.
pub const COUNTS_AT: usize = EVENTS_AT + 1;

// All numbers of a session.
pub const SESSION_SIZE: usize = COUNTS_AT + COUNT_SIZE;
