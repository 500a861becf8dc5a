// The open downloads: rows in the order of their openings, as many as their count says.
ghost use Rattle.std.specs.Prelude.{◌≡◌, true, ◌&&◌, ◌+◌, ◌*◌, ◌≤◌, ◌<◌, length, drop, eqb};
ghost use Rattle.octets.specs.Bytes.{overwrite};
ghost use Rattle.bank_state.specs.declared.state.Download.{Download};
ghost use Rattle.bank_state.specs.Limits.{place_count};
ghost use Rattle.bank_state.specs.Clock.{ends, end_downloads};
ghost use Rattle.bank_state.specs.Rows.{count_of};
ghost use Rattle.bank_state.specs.Search.{free_download, is_download, find_download};
ghost use Rattle.bank_state.specs.State.{download_at, with_download, with_downloads};
ghost use Rattle.bank_rows.specs.Layout.{downloads_at, download_width, downloads_size};
ghost use Rattle.bank_rows.specs.Rows.{KeptRows};
ghost use Rattle.bank_rows.specs.Records.{bits, download_of, download_row, stays_open};
ghost use Rattle.bank_rows.specs.State.{download_count_of, bank_of, stored, Laid};

use crate::rows::{move_row, wipe};
use bank_rows::layout::{
    DOWNLOAD_ATTEMPTS, DOWNLOAD_COUNT_AT, DOWNLOAD_DELIVERED, DOWNLOAD_HIGH, DOWNLOAD_LAST,
    DOWNLOAD_LOW, DOWNLOAD_SUBSCRIBER, DOWNLOAD_WIDTH, DOWNLOADS_AT, NONCES_AT,
};
use bank_rows::rows::put;
use bank_state::clock::{Ended, is_behind};
use bank_state::limits::{IDLE_LIMIT, PLACE_COUNT};
use bank_state::state::Download;
use frame_table::fields::Bits128;

// How many downloads are open: the first free record.
pub fn download_count(rows: &[u64]) -> usize
    requires { Laid rows.now }
    ensures { result ≡ free_download (bank_of rows.now) }
{
    rows[DOWNLOAD_COUNT_AT] as usize
}

// Download i.
pub fn download_at(rows: &[u64], i: usize) -> Download
    requires { Laid rows.now × (i < download_count_of rows.now) }
    ensures { result ≡ download_at (bank_of rows.now) i }
{
    let at = DOWNLOADS_AT + DOWNLOAD_WIDTH * i;
    let transaction = Bits128 {
        high: rows[at + DOWNLOAD_HIGH],
        low: rows[at + DOWNLOAD_LOW],
    };
    Download {
        used: true,
        transaction,
        subscriber: rows[at + DOWNLOAD_SUBSCRIBER],
        delivered: rows[at + DOWNLOAD_DELIVERED],
        attempts: rows[at + DOWNLOAD_ATTEMPTS],
        last: rows[at + DOWNLOAD_LAST],
    }
}

// Writes a download's numbers over row i.
fn put_download(rows: &mut [u64], i: usize, e: Download)
    requires { Laid rows.old × (i < place_count) }
    ensures { rows.new
        ≡ overwrite rows.old (downloads_at + download_width * i) (download_row e) }
{
    let numbers = [
        e.transaction.high,
        e.transaction.low,
        e.subscriber,
        e.delivered,
        e.attempts,
        e.last,
    ];
    put(rows, DOWNLOADS_AT + DOWNLOAD_WIDTH * i, &numbers);
}

// Sets download i.
pub fn set_download(rows: &mut [u64], i: usize, e: Download)
    requires { Laid rows.old × (i < download_count_of rows.old) × (e.used ≡ true) }
    ensures { rows.new ≡ stored (with_download i e (bank_of rows.old)) rows.old }
{
    put_download(rows, i, e);
}

// One more open download.
pub fn add_download(rows: &mut [u64], e: Download)
    requires { Laid rows.old × (download_count_of rows.old < place_count) × (e.used ≡ true) }
    ensures { rows.new ≡ stored
        (with_download (free_download (bank_of rows.old)) e (bank_of rows.old))
        rows.old }
{
    let n = rows[DOWNLOAD_COUNT_AT] as usize;
    put_download(rows, n, e);
    rows[DOWNLOAD_COUNT_AT] = (n + 1) as u64;
}

// Whether row i is of the download open for this subscriber under this transaction ID.
fn is_download_at(rows: &[u64], i: usize, subscriber: u64, high: u64, low: u64) -> bool
    requires { Laid rows.now × (i < download_count_of rows.now) }
    ensures { result ≡ is_download subscriber (bits high low) (download_at (bank_of rows.now) i) }
{
    is_row_of(
        rows,
        DOWNLOADS_AT + DOWNLOAD_WIDTH * i,
        subscriber,
        high,
        low,
    )
}

// Where an open download stands; the most downloads where there is none.
pub fn find_download(rows: &[u64], subscriber: u64, high: u64, low: u64) -> usize
    requires { Laid rows.now }
    ensures { result ≡ find_download subscriber (bits high low) (bank_of rows.now) }
{
    let n = rows[DOWNLOAD_COUNT_AT] as usize;
    (0..n)
        .find(|i| is_download_at(rows, *i, subscriber, high, low))
        .unwrap_or(PLACE_COUNT)
}

// Whether download i is this subscriber's.
fn is_download_of(rows: &[u64], i: usize, subscriber: u64) -> bool
    requires { Laid rows.now × (i < download_count_of rows.now) }
    ensures { result ≡ ((download_at (bank_of rows.now) i).used
        && eqb (download_at (bank_of rows.now) i).subscriber subscriber) }
{
    let at = DOWNLOADS_AT + DOWNLOAD_WIDTH * i;
    rows[at + DOWNLOAD_SUBSCRIBER] == subscriber
}

// The open downloads of a subscriber.
pub(crate) fn open_downloads_of(rows: &[u64], subscriber: u64) -> usize
    requires { Laid rows.now }
    ensures { result ≡ count_of (λ (e : Download). e.used && eqb e.subscriber subscriber)
        (bank_of rows.now).downloads }
{
    let n = rows[DOWNLOAD_COUNT_AT] as usize;
    (0..n)
        .filter(|i| is_download_of(rows, *i, subscriber))
        .count()
}

// Whether the row at a place has this subscriber and this transaction ID.
fn is_row_of(area: &[u64], at: usize, subscriber: u64, high: u64, low: u64) -> bool
    requires { at + download_width ≤ length area.now }
    ensures { result ≡ is_download subscriber (bits high low) (download_of (drop at area.now)) }
{
    area[at + DOWNLOAD_LOW] == low
        && area[at + DOWNLOAD_HIGH] == high
        && area[at + DOWNLOAD_SUBSCRIBER] == subscriber
}

// Whether the download of the row at a place ends.
fn ends_at(area: &[u64], at: usize, which: Ended) -> bool
    requires { at + download_width ≤ length area.now }
    ensures { result ≡ ends which (download_of (drop at area.now)) }
{
    match which {
        Ended::Idle(clock) => is_behind(clock, area[at + DOWNLOAD_LAST], IDLE_LIMIT),
        Ended::Mailbox(subscriber) => area[at + DOWNLOAD_SUBSCRIBER] == subscriber,
        Ended::Transaction(subscriber, transaction) => {
            is_row_of(area, at, subscriber, transaction.high, transaction.low)
        }
    }
}

// Keeps those of the first n rows that do not end, in their order, and wipes what is freed.
fn keep_downloads(area: &mut [u64], n: usize, which: Ended) -> usize
    requires { (n ≤ place_count) × (length area.old ≡ downloads_size) }
    ensures { KeptRows download_width download_of download_row (stays_open which) n result
        area.old area.new }
{
    let mut kept = 0;
    for row in 0..n {
        if !ends_at(area, DOWNLOAD_WIDTH * row, which) {
            move_row(
                area,
                DOWNLOAD_WIDTH,
                DOWNLOAD_WIDTH * row,
                DOWNLOAD_WIDTH * kept,
            );
            kept += 1;
        }
    }
    wipe(area, DOWNLOAD_WIDTH * kept, DOWNLOAD_WIDTH * n);
    kept
}

// Ends downloads.
pub fn end_downloads(rows: &mut [u64], which: Ended)
    requires { Laid rows.old }
    ensures { rows.new ≡ stored
        (with_downloads (end_downloads which (bank_of rows.old).downloads) (bank_of rows.old))
        rows.old }
{
    let n = rows[DOWNLOAD_COUNT_AT] as usize;
    let kept = keep_downloads(&mut rows[DOWNLOADS_AT..NONCES_AT], n, which);
    rows[DOWNLOAD_COUNT_AT] = kept as u64;
}
