// The open transactions: uploads and downloads.
ghost use Rattle.std.specs.Prelude.{◌≡◌};
ghost use Rattle.bank_state.specs.Search.{open_count, open_count_of};
ghost use Rattle.bank_rows.specs.State.{bank_of, Laid};

use crate::downloads::{download_count, open_downloads_of};
use bank_rows::places::{open_uploads, open_uploads_of};

// The open transactions of all subscribers.
pub fn open_count(rows: &[u64]) -> usize
    requires { Laid rows.now }
    ensures { result ≡ open_count (bank_of rows.now) }
{
    open_uploads(rows) + download_count(rows)
}

// The open transactions of one subscriber.
pub fn open_count_of(rows: &[u64], subscriber: u64) -> usize
    requires { Laid rows.now }
    ensures { result ≡ open_count_of subscriber (bank_of rows.now) }
{
    open_uploads_of(rows, subscriber) + open_downloads_of(rows, subscriber)
}
