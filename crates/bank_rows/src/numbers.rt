// The numbers of the state that stand alone: the clock, the openings accepted, the lengths of the files, and how far
// each series has come.
ghost use Rattle.std.specs.Prelude.{◌≡◌, ◌-◌, ◌<◌, length, get_or, set};
ghost use Rattle.bank_state.specs.Limits.{place_count};
ghost use Rattle.bank_state.specs.State.{file_length, series_of, with_clock, with_openings, with_files, with_series};
ghost use Rattle.bank_rows.specs.Layout.{state_size};
ghost use Rattle.bank_rows.specs.State.{bank_of, stored, Laid};

use crate::layout::{CLOCK_AT, FILES_AT, OPENINGS_AT, SERIES_AT};
use bank_state::limits::PLACE_COUNT;

pub fn clock(rows: &[u64]) -> u64
    requires { Laid rows.now }
    ensures { result ≡ (bank_of rows.now).clock }
{
    rows[CLOCK_AT]
}

pub fn set_clock(rows: &mut [u64], clock: u64)
    requires { Laid rows.old }
    ensures { rows.new ≡ stored (with_clock clock (bank_of rows.old)) rows.old }
{
    rows[CLOCK_AT] = clock;
}

// The openings accepted.
pub fn openings(rows: &[u64]) -> u64
    requires { Laid rows.now }
    ensures { result ≡ (bank_of rows.now).openings }
{
    rows[OPENINGS_AT]
}

pub fn set_openings(rows: &mut [u64], n: u64)
    requires { Laid rows.old }
    ensures { rows.new ≡ stored (with_openings n (bank_of rows.old)) rows.old }
{
    rows[OPENINGS_AT] = n;
}

// The length of the file in mailbox i.
pub fn file_length(rows: &[u64], i: usize) -> u64
    requires { (length rows.now ≡ state_size) × (i < place_count) }
    ensures { result ≡ get_or (bank_of rows.now).files i 0 }
{
    rows[FILES_AT + i]
}

// Where a subscriber's number stands among the eight of a column; past them for one that there is not.
fn index_of(subscriber: u64) -> usize
    ensures { result ≡ subscriber - 1 }
{
    subscriber.saturating_sub(1) as usize
}

// The length of the file in a subscriber's mailbox, 0 where it is empty.
pub fn file_length_of(rows: &[u64], subscriber: u64) -> u64
    requires { Laid rows.now }
    ensures { result ≡ file_length subscriber (bank_of rows.now).files }
{
    let i = index_of(subscriber);
    if i < PLACE_COUNT {
        file_length(rows, i)
    } else {
        0
    }
}

pub fn set_file_length(rows: &mut [u64], i: usize, n: u64)
    requires { Laid rows.old × (i < place_count) }
    ensures { rows.new
        ≡ stored (with_files (set (bank_of rows.old).files i n) (bank_of rows.old))
        rows.old }
{
    rows[FILES_AT + i] = n;
}

// How far the numbering of the uploads of subscriber i + 1 has come.
pub fn series_at(rows: &[u64], i: usize) -> u64
    requires { (length rows.now ≡ state_size) × (i < place_count) }
    ensures { result ≡ get_or (bank_of rows.now).series i 0 }
{
    rows[SERIES_AT + i]
}

// How far the numbering of a subscriber's uploads has come.
pub fn series_of(rows: &[u64], subscriber: u64) -> u64
    requires { Laid rows.now }
    ensures { result ≡ series_of subscriber (bank_of rows.now).series }
{
    let i = index_of(subscriber);
    if i < PLACE_COUNT {
        series_at(rows, i)
    } else {
        0
    }
}

pub fn set_series_at(rows: &mut [u64], i: usize, n: u64)
    requires { Laid rows.old × (i < place_count) }
    ensures { rows.new
        ≡ stored (with_series (set (bank_of rows.old).series i n) (bank_of rows.old))
        rows.old }
{
    rows[SERIES_AT + i] = n;
}

// Sets how far a subscriber's series has come; there is none after the eight.
pub fn set_series_of(rows: &mut [u64], subscriber: u64, n: u64)
    requires { Laid rows.old }
    ensures { rows.new
        ≡ stored (with_series (set (bank_of rows.old).series (subscriber - 1) n) (bank_of rows.old))
        rows.old }
{
    let i = index_of(subscriber);
    if i < PLACE_COUNT {
        set_series_at(rows, i, n);
    }
}
