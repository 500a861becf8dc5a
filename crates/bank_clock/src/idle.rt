// How many open transactions a clock drops, counted on the rows before it is set.
ghost use Rattle.std.specs.Prelude.{◌≡◌, ◌≤◌, ◌<◌};
ghost use Rattle.bank_state.specs.Limits.{place_count};
ghost use Rattle.bank_state.specs.Rows.{count_of};
ghost use Rattle.bank_state.specs.State.{download_at};
ghost use Rattle.bank_rows.specs.State.{download_count_of, bank_of, Laid};
ghost use Rattle.bank_clock.specs.Idle.{is_idle_upload, is_idle_download, idle_count};

use crate::clock::is_idle_upload;
use bank_rows::layout::{DOWNLOAD_COUNT_AT, DOWNLOAD_LAST, DOWNLOAD_WIDTH, DOWNLOADS_AT};
use bank_state::clock::is_behind;
use bank_state::limits::{IDLE_LIMIT, PLACE_COUNT};

// The open uploads that are idle at this clock.
fn idle_uploads(rows: &[u64], clock: u64) -> usize
    requires { Laid rows.now }
    ensures { (result ≤ place_count) × (result ≡ count_of (is_idle_upload clock) (bank_of rows.now).places) }
{
    (0..PLACE_COUNT)
        .filter(|i| is_idle_upload(rows, *i, clock))
        .count()
}

// Whether download i is idle at this clock.
fn is_idle_download(rows: &[u64], i: usize, clock: u64) -> bool
    requires { Laid rows.now × (i < download_count_of rows.now) }
    ensures { result ≡ is_idle_download clock (download_at (bank_of rows.now) i) }
{
    let at = DOWNLOADS_AT + DOWNLOAD_WIDTH * i;
    is_behind(clock, rows[at + DOWNLOAD_LAST], IDLE_LIMIT)
}

// The open downloads that are idle at this clock.
fn idle_downloads(rows: &[u64], clock: u64) -> usize
    requires { Laid rows.now }
    ensures { (result ≤ place_count)
        × (result ≡ count_of (is_idle_download clock) (bank_of rows.now).downloads) }
{
    let n = rows[DOWNLOAD_COUNT_AT] as usize;
    (0..n).filter(|i| is_idle_download(rows, *i, clock)).count()
}

// The open transactions that are idle at this clock.
pub fn idle_count(rows: &[u64], clock: u64) -> usize
    requires { Laid rows.now }
    ensures { result ≡ idle_count clock (bank_of rows.now) }
{
    idle_uploads(rows, clock) + idle_downloads(rows, clock)
}
