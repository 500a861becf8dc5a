// The unit's lines in lent memory: of each a row of numbers, and a store for the messages that it holds.
ghost use Rattle.std.specs.Prelude.{◌≡◌, ◌<◌, length};
ghost use Rattle.unit_state.specs.Records.{line_count};
ghost use Rattle.unit_rows.specs.Lines.{lines_size, stores_bytes, lines_of, row_at, is_made};
ghost use Rattle.unit_rows.specs.Lines.{made_at_of, made_at, put_at_of, put_at};

use line::calls::{Delivery, MakeRefusal, make_line, put_in};
use line::layout::{ROW_SIZE, STORE_BYTES, VALUE_AT};
use number_table::table::WrongLength;
use unit_state::record::LINE_COUNT;

// The numbers of all lines, and the bytes of all their stores.
pub const LINES_SIZE: usize = LINE_COUNT * ROW_SIZE;

pub const STORES_BYTES: usize = LINE_COUNT * STORE_BYTES;

// Whether line i is made: a generator in use is not at 0.
pub fn is_made(rows: &[u64], i: usize) -> bool
    requires { (i < line_count) × (length rows.now ≡ lines_size) }
    ensures { result ≡ is_made (row_at rows.now i) }
{
    rows[i * ROW_SIZE + VALUE_AT] != 0
}

// Line i is made from a seed.
pub fn make_at(rows: &mut [u64], stores: &[u8], i: usize, seed: u32) -> Result<(), MakeRefusal>
    requires { (i < line_count) × (length rows.old ≡ lines_size) × (length stores.now ≡ stores_bytes) }
    ensures { made_at_of result (lines_of rows.new stores.now)
        ≡ made_at (lines_of rows.old stores.now) i seed }
{
    let from = i * ROW_SIZE;
    let end = from + ROW_SIZE;
    let first = i * STORE_BYTES;
    let last = first + STORE_BYTES;
    make_line(&mut rows[from..end], &stores[first..last], seed)
}

// A message is put into line i; a held one that comes out goes to the front of the buffer.
pub fn put_at(
    rows: &mut [u64],
    stores: &mut [u8],
    i: usize,
    message: &[u8],
    buffer: &mut [u8],
) -> Result<Delivery, WrongLength>
    requires { (i < line_count) × (length rows.old ≡ lines_size) × (length stores.old ≡ stores_bytes) }
    ensures { put_at_of result (lines_of rows.new stores.new) buffer.new
        ≡ put_at (lines_of rows.old stores.old) i message.now buffer.old }
{
    let from = i * ROW_SIZE;
    let end = from + ROW_SIZE;
    let first = i * STORE_BYTES;
    let last = first + STORE_BYTES;
    put_in(
        &mut rows[from..end],
        &mut stores[first..last],
        message,
        buffer,
    )
}
