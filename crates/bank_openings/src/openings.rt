// What an accepted opening leaves.
ghost use Rattle.std.specs.Prelude.{◌≡◌, true, ◌<◌};
ghost use Rattle.message.specs.Editions.{edition_of};
ghost use Rattle.bank_state.specs.Limits.{nonce_count, max_openings};
ghost use Rattle.bank_state.specs.State.{with_series};
ghost use Rattle.bank_state.specs.Search.{free_nonce};
ghost use Rattle.bank_rows.specs.State.{bank_of, stored, Laid};
ghost use Rattle.bank_openings.specs.Openings.{UploadRoom, DownloadRoom, counted, moved, fits_series, counted_upload};
ghost use Rattle.bank_openings.specs.Openings.{open_upload, open_download};

use bank_lists::downloads::add_download;
use bank_lists::nonces::add_nonce;
use bank_rows::numbers::{clock, openings, set_openings, set_series_of};
use bank_rows::places::{free_place, set_place};
use bank_state::state::{Download, Place, Use};
use frame_table::fields::{Bits128, Fields};
use message::editions::{Edition, edition_of};

// One opening more is accepted, and its nonce is remembered.
fn count_opening(rows: &mut [u64], q: Fields)
    requires { Laid rows.old × (free_nonce (bank_of rows.old) < nonce_count)
        × ((bank_of rows.old).openings < max_openings) }
    ensures { rows.new ≡ stored (counted q (bank_of rows.old)) rows.old }
{
    let n = openings(rows);
    let nonce = q.nonce();
    add_nonce(rows, nonce.high, nonce.low, q.timestamp());
    set_openings(rows, n + 1);
}

// The bank's own numbering goes on after the number that it gave; an upload that brought its number leaves it alone.
fn move_series(rows: &mut [u64], number: u64, q: Fields)
    requires { Laid rows.old × (fits_series (edition_of q) number ≡ true) }
    ensures { rows.new
        ≡ stored (with_series (moved number q (bank_of rows.old).series) (bank_of rows.old))
        rows.old }
{
    match edition_of(q) {
        Edition::V24 => {}
        Edition::V25 => set_series_of(rows, q.subscriber(), number + 1),
    }
}

// An accepted upload is one opening more, and with the bank's own number one upload more of its subscriber's series.
fn count_upload(rows: &mut [u64], number: u64, q: Fields)
    requires { Laid rows.old × UploadRoom (bank_of rows.old) q × (fits_series (edition_of q) number ≡ true) }
    ensures { rows.new
        ≡ stored (counted_upload number q (bank_of rows.old)) rows.old }
{
    count_opening(rows, q);
    move_series(rows, number, q);
}

// An accepted upload takes the first free place, with its transaction ID and its order's number.
pub fn open_upload(rows: &mut [u64], transaction: Bits128, number: u64, q: Fields)
    requires { Laid rows.old × UploadRoom (bank_of rows.old) q × (fits_series (edition_of q) number ≡ true) }
    ensures { rows.new
        ≡ stored (open_upload transaction number q (bank_of rows.old)) rows.old }
{
    let i = free_place(rows);
    let place = Place {
        used: Use::Open,
        transaction,
        subscriber: q.subscriber(),
        number,
        segments: q.segments(),
        taken: 0,
        attempts: 0,
        last: clock(rows),
        length: 0,
        signers: 0,
    };
    count_upload(rows, number, q);
    set_place(rows, i, place);
}

// An accepted download has segment 1 of its mailbox delivered.
pub fn open_download(rows: &mut [u64], transaction: Bits128, q: Fields)
    requires { Laid rows.old × DownloadRoom (bank_of rows.old) q }
    ensures { rows.new
        ≡ stored (open_download transaction q (bank_of rows.old)) rows.old }
{
    let download = Download {
        used: true,
        transaction,
        subscriber: q.subscriber(),
        delivered: 1,
        attempts: 0,
        last: clock(rows),
    };
    count_opening(rows, q);
    add_download(rows, download);
}
