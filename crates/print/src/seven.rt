// The seven counts, written into a lent output.
ghost use Rattle.std.specs.Prelude.{◌+◌, ◌≤◌, length};
ghost use Rattle.print.specs.Text.{Put};
ghost use Rattle.print.specs.Seven.{counts_text, counts_room};

use crate::text::{put_column, put_decimal};
use opening_counts::seven::Counts;

// The most bytes of the seven counts.
pub const COUNTS_ROOM: usize = 6 * 21 + 20;

// Writes the seven counts in document 02's order, a space between two of them. One line for each and no loop, since
// `counts_text` names each and the last has no space.
pub fn put_counts(output: &mut [u8], at: usize, c: Counts) -> usize
    requires { at + counts_room ≤ length output.old }
    ensures { Put output.old at (counts_text c) output.new result }
{
    let a = put_column(output, at, c.pending, b' ');
    let b = put_column(output, a, c.booked, b' ');
    let d = put_column(output, b, c.fetched, b' ');
    let e = put_column(output, d, c.skipped, b' ');
    let f = put_column(output, e, c.ended, b' ');
    let g = put_column(output, f, c.cancelled, b' ');
    put_decimal(output, g, c.dropped)
}
