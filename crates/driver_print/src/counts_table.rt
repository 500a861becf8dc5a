// The closing table of the seven counts, written into a lent output.
ghost use Rattle.std.specs.Prelude.{◌≡◌, length};
ghost use Rattle.print.specs.Text.{printed, printed_count};
ghost use Rattle.driver_print.specs.Counts.{counts_table, counts_table_room};

use opening_counts::seven::Counts;
use print::seven::{COUNTS_ROOM, put_counts};
use print::text::{put_byte, put_text};

// The most bytes of the table: its header, the seven counts and the newline behind them.
const COUNTS_TABLE_ROOM: usize = 52 + COUNTS_ROOM + 1;

// The table of the seven counts at the front of the output, and its length.
pub fn counts_table(c: Counts, output: &mut [u8]) -> usize
    ensures { (output.new ≡ printed counts_table_room (counts_table c) output.old)
        × (result ≡ printed_count counts_table_room (counts_table c) output.old) }
{
    if output.len() < COUNTS_TABLE_ROOM {
        return 0;
    }
    let a = put_text(
        output,
        0,
        b"open booked fetched skipped ended cancelled dropped\n",
    );
    let b = put_counts(output, a, c);
    put_byte(output, b, b'\n')
}
