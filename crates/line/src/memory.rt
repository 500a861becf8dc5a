// The row and the store: the one test of a row, the bytes held, a message that is held and one that comes out.
ghost use Rattle.std.specs.Prelude.{◌≡◌, [], ◌∷◌, ◌++◌, ◌+◌, ◌-◌, ◌≤◌, ◌<◌, length, take, drop};
ghost use Rattle.octets.specs.Bytes.{overwrite};
ghost use Rattle.line.specs.Line.{most_held, message_bytes, with_newest};
ghost use Rattle.line.specs.Memory.{
  lengths_at,
  row_size,
  store_bytes,
  total,
  count_of,
  line_of,
  row_of,
  store_of,
  all_below,
  length_limit,
  is_length,
  is_line,
  Laid,
  Released,
};

use crate::generator::VALUE_LIMIT;
use crate::layout::{COUNT_AT, LENGTHS_AT, MESSAGE_BYTES, MOST_HELD, ROW_SIZE, VALUE_AT};
use octets::bytes::copy;

// The most that length i of the row may be: 0 behind those of the messages held.
#[tactic(auto, unfolding(crate::specs::Memory::length_limit))]
fn length_limit(count: u64, i: usize) -> u64
    ensures { result ≡ length_limit count i }
{
    if (i as u64) < count {
        MESSAGE_BYTES as u64
    } else {
        0
    }
}

// Whether the lengths are those of messages held, and 0 behind them.
fn are_lengths(row: &[u64]) -> bool
    requires { length row.now ≡ row_size }
    ensures { result ≡ all_below (is_length row.now) most_held }
{
    (0..MOST_HELD).all(|i| row[LENGTHS_AT + i] <= length_limit(row[COUNT_AT], i))
}

// Whether the row is one that calls leave.
#[tactic(auto, unfolding(crate::specs::Memory::is_line))]
pub(crate) fn is_line(row: &[u64]) -> bool
    ensures { result ≡ is_line row.now }
{
    row.len() == ROW_SIZE
        && row[VALUE_AT] != 0
        && row[VALUE_AT] < VALUE_LIMIT
        && row[COUNT_AT] <= MOST_HELD as u64
        && are_lengths(row)
}

// How many bytes are held.
fn bytes_held(row: &[u64]) -> usize
    requires { Laid row.now }
    ensures { result ≡ total (drop lengths_at row.now) }
{
    row[LENGTHS_AT..].iter().sum::<u64>() as usize
}

// Moves the bytes from place n on, up to an end, to the front.
fn close_up(store: &mut [u8], n: usize, end: usize)
    requires { (n ≤ end) × (end ≤ length store.old) }
    ensures { store.new ≡ overwrite store.old 0 (take (end - n) (drop n store.old)) }
{
    store.copy_within(n..end, 0);
}

// Drops the first length, and moves the others up.
fn drop_length(row: &mut [u64])
    requires { length row.old ≡ row_size }
    ensures { row.new ≡ take lengths_at row.old ++ (drop (lengths_at + 1) row.old ++ (0 ∷ [])) }
{
    row.copy_within(LENGTHS_AT + 1.., LENGTHS_AT);
    row[ROW_SIZE - 1] = 0;
}

// A message is held, as the newest.
pub(crate) fn hold(row: &mut [u64], store: &mut [u8], message: &[u8])
    requires { Laid row.old × (count_of row.old < most_held) × (length store.old ≡ store_bytes) × (length message.now ≤ message_bytes) }
    ensures { (row.new ≡ row_of (with_newest message.now (line_of row.old store.old)))
        × (store.new ≡ store_of (with_newest message.now (line_of row.old store.old)) store.old) }
{
    let count = row[COUNT_AT] as usize;
    let end = bytes_held(row);
    copy(store, end, message);
    row[LENGTHS_AT + count] = message.len() as u64;
    row[COUNT_AT] = (count + 1) as u64;
}

// The message held longest goes to the front of the buffer; its length is given back.
pub(crate) fn release(row: &mut [u64], store: &mut [u8], out: &mut [u8]) -> usize
    requires { Laid row.old × (0 < count_of row.old) × (length store.old ≡ store_bytes) × (message_bytes ≤ length out.old) }
    ensures { Released (line_of row.old store.old) store.old out.old
        result row.new store.new out.new }
{
    let n = row[LENGTHS_AT] as usize;
    let count = row[COUNT_AT];
    let end = bytes_held(row);
    copy(out, 0, &store[..n]);
    close_up(store, n, end);
    drop_length(row);
    row[COUNT_AT] = count - 1;
    n
}
