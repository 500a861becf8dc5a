// The numbers of a session behind the bank's: the number of events, and the seven counts.
ghost use Rattle.std.specs.Prelude.{◌≡◌, length};
ghost use Rattle.bank_session.specs.Session.{session_size, bank_rows, counts_in, with_numbers};

use crate::layout::{COUNTS_AT, EVENTS_AT};
use bank_rows::rows::put;
use opening_counts::seven::Counts;

// The counts among a session's numbers.
pub(crate) fn counts_in(rows: &[u64]) -> Counts
    requires { length rows.now ≡ session_size }
    ensures { result ≡ counts_in rows.now }
{
    Counts {
        pending: rows[COUNTS_AT],
        booked: rows[COUNTS_AT + 1],
        fetched: rows[COUNTS_AT + 2],
        skipped: rows[COUNTS_AT + 3],
        ended: rows[COUNTS_AT + 4],
        cancelled: rows[COUNTS_AT + 5],
        dropped: rows[COUNTS_AT + 6],
    }
}

// Sets the number of events and the counts.
pub(crate) fn set_numbers(rows: &mut [u64], events: u64, c: Counts)
    requires { length rows.old ≡ session_size }
    ensures { rows.new ≡ with_numbers (bank_rows rows.old) events c }
{
    let numbers = [
        events,
        c.pending,
        c.booked,
        c.fetched,
        c.skipped,
        c.ended,
        c.cancelled,
        c.dropped,
    ];
    put(rows, EVENTS_AT, &numbers);
}
