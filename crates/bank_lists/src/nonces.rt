// The remembered nonces: rows in the order of their openings, as many as their count says.
ghost use Rattle.std.specs.Prelude.{◌≡◌, true, ◌&&◌, ◌+◌, ◌*◌, ◌≤◌, ◌<◌, length, set, drop};
ghost use Rattle.frame_table.specs.Names.{same_bits};
ghost use Rattle.bank_state.specs.Limits.{nonce_count};
ghost use Rattle.bank_state.specs.Clock.{forget};
ghost use Rattle.bank_state.specs.Search.{free_nonce, is_remembered};
ghost use Rattle.bank_state.specs.State.{with_nonces};
ghost use Rattle.bank_rows.specs.Layout.{nonce_width, nonces_size};
ghost use Rattle.bank_rows.specs.Rows.{all_below, KeptRows};
ghost use Rattle.bank_rows.specs.Records.{bits, nonce_of, nonce_row, nonce_record, stays_remembered, row_stays};
ghost use Rattle.bank_rows.specs.State.{nonce_count_of, bank_of, stored, Laid, nonce_at};

use crate::rows::{move_row, wipe};
use bank_rows::layout::{
    NONCE_COUNT_AT, NONCE_HIGH, NONCE_LOW, NONCE_TIMESTAMP, NONCE_WIDTH, NONCES_AT, STATE_SIZE,
};
use bank_rows::rows::put;
use bank_state::clock::is_behind;
use bank_state::limits::WINDOW;

// How many nonces are remembered: the first free record.
pub fn nonce_count(rows: &[u64]) -> usize
    requires { Laid rows.now }
    ensures { result ≡ free_nonce (bank_of rows.now) }
{
    rows[NONCE_COUNT_AT] as usize
}

// Whether row i is of this nonce.
fn is_nonce_at(rows: &[u64], i: usize, high: u64, low: u64) -> bool
    requires { Laid rows.now × (i < nonce_count_of rows.now) }
    ensures { result ≡ ((nonce_at (bank_of rows.now) i).used
        && same_bits (nonce_at (bank_of rows.now) i).value (bits high low)) }
{
    let at = NONCES_AT + NONCE_WIDTH * i;
    rows[at + NONCE_LOW] == low && rows[at + NONCE_HIGH] == high
}

// Whether a nonce is remembered.
pub fn is_remembered(rows: &[u64], high: u64, low: u64) -> bool
    requires { Laid rows.now }
    ensures { result ≡ is_remembered (bits high low) (bank_of rows.now) }
{
    let n = rows[NONCE_COUNT_AT] as usize;
    (0..n).any(|i| is_nonce_at(rows, i, high, low))
}

// Remembers one more nonce.
pub fn add_nonce(rows: &mut [u64], high: u64, low: u64, timestamp: u64)
    requires { Laid rows.old × (nonce_count_of rows.old < nonce_count) }
    ensures { rows.new ≡ stored
        (with_nonces (set (bank_of rows.old).nonces (free_nonce (bank_of rows.old))
        (nonce_record (bits high low) timestamp)) (bank_of rows.old))
        rows.old }
{
    let n = rows[NONCE_COUNT_AT] as usize;
    let numbers = [high, low, timestamp];
    put(rows, NONCES_AT + NONCE_WIDTH * n, &numbers);
    rows[NONCE_COUNT_AT] = (n + 1) as u64;
}

// Whether the nonce of the row at a place stays: its timestamp is not too far behind the clock.
fn stays_at(area: &[u64], at: usize, clock: u64) -> bool
    requires { at + nonce_width ≤ length area.now }
    ensures { result ≡ stays_remembered clock (nonce_of (drop at area.now)) }
{
    !is_behind(clock, area[at + NONCE_TIMESTAMP], WINDOW)
}

// Whether the nonces of the first n rows all stay.
fn all_stay(area: &[u64], n: usize, clock: u64) -> bool
    requires { (n ≤ nonce_count) × (length area.now ≡ nonces_size) }
    ensures { result ≡ all_below (row_stays clock area.now) n }
{
    (0..n).all(|i| stays_at(area, NONCE_WIDTH * i, clock))
}

// Keeps those of the first n rows that stay, in their order, and wipes what is freed.
fn keep_nonces(area: &mut [u64], n: usize, clock: u64) -> usize
    requires { (n ≤ nonce_count) × (length area.old ≡ nonces_size) }
    ensures { KeptRows nonce_width nonce_of nonce_row (stays_remembered clock) n result
        area.old area.new }
{
    if all_stay(area, n, clock) {
        return n;
    }
    let mut kept = 0;
    for row in 0..n {
        if stays_at(area, NONCE_WIDTH * row, clock) {
            move_row(area, NONCE_WIDTH, NONCE_WIDTH * row, NONCE_WIDTH * kept);
            kept += 1;
        }
    }
    wipe(area, NONCE_WIDTH * kept, NONCE_WIDTH * n);
    kept
}

// Forgets the nonces whose timestamp is too far behind the clock.
pub fn forget(rows: &mut [u64], clock: u64)
    requires { Laid rows.old }
    ensures { rows.new ≡ stored
        (with_nonces (forget clock (bank_of rows.old).nonces) (bank_of rows.old))
        rows.old }
{
    let n = rows[NONCE_COUNT_AT] as usize;
    let kept = keep_nonces(&mut rows[NONCES_AT..STATE_SIZE], n, clock);
    rows[NONCE_COUNT_AT] = kept as u64;
}
