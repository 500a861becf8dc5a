// The reply that a verdict gives.
ghost use Rattle.std.specs.Prelude.{◌≡◌, cond, eqb};
ghost use Rattle.message.specs.Limits.{initialisation_phase, transfer_phase};
ghost use Rattle.message.specs.Editions.{edition_of};
ghost use Rattle.bank_verdicts.specs.Replies.{segment_reply, opened_reply, upload_reply, download_reply, reply_to};
ghost use Rattle.bank_verdicts.specs.Replies.{download_segment_in, segment_in};

use crate::verdict::{Action, DownloadAction, UploadAction, Verdict};
use frame_table::fields::{Bits128, Fields};
use message::codes::ReturnCode;
use message::editions::{Edition, edition_of};
use message::limits::{INITIALISATION_PHASE, TRANSFER_PHASE};
use message::order_numbers::order_number_of;
use message::replies::{
    chosen_opened, download_opened, download_segment, receipt_answered, recovery_point, refusal,
    segment_taken, unreadable, upload_opened,
};
use message::segments::last_mark_of;

// The phase of a recovery point: 1 for a transaction's first one, else 2.
fn point_phase(point: u64, first: u64) -> u64
    ensures { result ≡ cond (eqb point first) initialisation_phase transfer_phase }
{
    if point == first {
        INITIALISATION_PHASE
    } else {
        TRANSFER_PHASE
    }
}

// The segment of n that a request asks for.
fn segment_reply(n: u64, transaction: Bits128, q: Fields) -> Fields
    ensures { result ≡ segment_reply n transaction q }
{
    let segment = q.segment();
    download_segment(q.exchange(), transaction, segment, last_mark_of(segment, n))
}

// The reply to an accepted upload opening: that of edition 2.4 has no order number.
fn opened_reply(n: u64, transaction: Bits128, q: Fields) -> Fields
    ensures { result ≡ opened_reply (edition_of q) n transaction q }
{
    let exchange = q.exchange();
    match edition_of(q) {
        Edition::V24 => chosen_opened(exchange, transaction),
        Edition::V25 => upload_opened(exchange, transaction, order_number_of(n)),
    }
}

// The reply to a request to an upload.
fn upload_reply(action: UploadAction, transaction: Bits128, q: Fields) -> Fields
    ensures { result ≡ upload_reply action transaction q }
{
    let exchange = q.exchange();
    match action {
        UploadAction::Opened(n) => opened_reply(n, transaction, q),
        UploadAction::Took | UploadAction::TookLast => {
            segment_taken(exchange, transaction, q.segment())
        }
        UploadAction::Point(k) => recovery_point(point_phase(k, 0), exchange, transaction, k),
        UploadAction::Cancelled(code) => refusal(q.phase(), exchange, code),
    }
}

// The reply to a request to a download.
fn download_reply(action: DownloadAction, transaction: Bits128, q: Fields) -> Fields
    ensures { result ≡ download_reply action transaction q }
{
    let exchange = q.exchange();
    match action {
        DownloadAction::Opened(n) => download_opened(exchange, n, transaction, last_mark_of(1, n)),
        DownloadAction::Delivered(n) | DownloadAction::SentAgain(n) => {
            segment_reply(n, transaction, q)
        }
        DownloadAction::Point(d) => recovery_point(point_phase(d, 1), exchange, transaction, d),
        DownloadAction::Cancelled => refusal(q.phase(), exchange, ReturnCode::TransactionAbort),
        DownloadAction::Confirmed => {
            receipt_answered(exchange, transaction, ReturnCode::DownloadPostprocessDone)
        }
        DownloadAction::Declined => {
            receipt_answered(
                exchange,
                transaction,
                ReturnCode::DownloadPostprocessSkipped,
            )
        }
    }
}

// The fields of the reply to the request q.
pub fn reply_to(verdict: Verdict, q: Fields) -> Fields
    ensures { result ≡ reply_to verdict q }
{
    match verdict {
        Verdict::Unreadable => unreadable(),
        Verdict::Refused(code) => refusal(q.phase(), q.exchange(), code),
        Verdict::Of(transaction, Action::Upload(action)) => upload_reply(action, transaction, q),
        Verdict::Of(transaction, Action::Download(action)) => {
            download_reply(action, transaction, q)
        }
        Verdict::Signed(..) => refusal(q.phase(), q.exchange(), ReturnCode::Ok),
    }
}

// The segment whose bytes a reply about a download carries; 0 where it carries none.
fn download_segment_in(action: DownloadAction, q: Fields) -> u64
    ensures { result ≡ download_segment_in action q }
{
    match action {
        DownloadAction::Opened(_) => 1,
        DownloadAction::Delivered(_) | DownloadAction::SentAgain(_) => q.segment(),
        _ => 0,
    }
}

// The mailbox's segment that is the reply's data; 0 where it has none.
pub fn segment_in(verdict: Verdict, q: Fields) -> u64
    ensures { result ≡ segment_in verdict q }
{
    match verdict {
        Verdict::Of(_, Action::Download(action)) => download_segment_in(action, q),
        _ => 0,
    }
}
