// A session's numbers gathered in the order of its image, and the session's scattered from them.
ghost use Rattle.std.specs.Prelude.{◌≡◌, ◌+◌, ◌≤◌, length};
ghost use Rattle.octets.specs.Bytes.{overwrite};
ghost use Rattle.opening_counts.specs.Counts.{count_size, count_row, counts_from};
ghost use Rattle.bank_session.specs.Session.{session_size};
ghost use Rattle.image_records.specs.Layout.{number_count};
ghost use Rattle.image_numbers.specs.Numbers.{numbers_in, rows_from};

use crate::events::put_events;
use crate::moving::move_groups;
use crate::table::{ALL_GROUPS, SESSION_GROUPS};
use bank_rows::rows::put;
use bank_session::layout::COUNTS_AT;
use image_records::layout::COUNTS;
use journal::event::{Event, RECORD_COUNT};
use opening_counts::seven::COUNT_SIZE;

// Writes the counts that stand from one place on over the numbers from another.
fn put_counts(from: &[u64], at: usize, to: &mut [u64], place: usize)
    requires { (at + count_size ≤ length from.now) × (place + count_size ≤ length to.old) }
    ensures { to.new
        ≡ overwrite to.old place (count_row (counts_from at from.now)) }
{
    let end = at + COUNT_SIZE;
    put(to, place, &from[at..end]);
}

// The numbers of a session's image: those of the rows, behind them the journal's, and the counts.
pub fn gather(rows: &[u64], row: [Event; RECORD_COUNT], numbers: &mut [u64])
    requires { (length rows.now ≡ session_size) × (length numbers.old ≡ number_count) }
    ensures { numbers.new ≡ numbers_in rows.now row }
{
    move_groups(0, SESSION_GROUPS, rows, numbers);
    put_events(row, numbers);
    put_counts(rows, COUNTS_AT, numbers, COUNTS);
}

// The rows of an image's numbers.
pub fn scatter(numbers: &[u64], rows: &mut [u64])
    requires { (length numbers.now ≡ number_count) × (length rows.old ≡ session_size) }
    ensures { rows.new ≡ rows_from numbers.now }
{
    move_groups(SESSION_GROUPS, ALL_GROUPS, numbers, rows);
    put_counts(numbers, COUNTS, rows, COUNTS_AT);
}
