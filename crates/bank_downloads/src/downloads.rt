// A request to an open download.
ghost use Rattle.std.specs.Prelude.{◌≡◌, ◌+◌, ◌<◌};
ghost use Rattle.message.specs.Limits.{max_attempts};
ghost use Rattle.bank_verdicts.specs.declared.verdict.DownloadAction.TheVariants as down;
ghost use Rattle.bank_verdicts.specs.Refusals.{fits_download, is_sent_again, receipt_rows};
ghost use Rattle.bank_verdicts.specs.Judgement.{judged, judge_download};
ghost use Rattle.bank_downloads.specs.Downloads.{advanced_to, attempted, download_step};

use bank_state::state::Download;
use bank_verdicts::verdict::{DownloadAction, TransactionRequest};
use frame_table::fields::Fields;
use message::limits::MAX_ATTEMPTS;
use message::segments::is_next;

// The download after a request, where it stays open, and what the request did.
#[derive(Clone, Copy)]
pub struct DownloadStep {
    pub entry: Download,
    pub action: DownloadAction,
}

// Whether the request fits a download of n segments.
fn fits_download(r: TransactionRequest, e: Download, n: u64, q: Fields) -> bool
    ensures { result ≡ fits_download r e n q }
{
    match r {
        TransactionRequest::UploadTransfer => false,
        TransactionRequest::DownloadTransfer => {
            is_next(q.segment(), e.delivered) && q.segment() <= n
        }
        TransactionRequest::Receipt => e.delivered == n,
    }
}

// Whether the request asks for a segment again.
fn is_sent_again(r: TransactionRequest, e: Download, q: Fields) -> bool
    ensures { result ≡ is_sent_again r e q }
{
    r == TransactionRequest::DownloadTransfer && (1..=e.delivered).contains(&q.segment())
}

// What a request that fits a download of n segments does.
#[tactic(auto, unfolding(bank_verdicts::specs::Refusals::receipt_rows))]
fn judge_fitting(r: TransactionRequest, n: u64, q: Fields) -> DownloadAction
    ensures { result ≡ judged (receipt_rows r q) (down.Delivered n) }
{
    match r {
        TransactionRequest::UploadTransfer | TransactionRequest::DownloadTransfer => {
            DownloadAction::Delivered(n)
        }
        TransactionRequest::Receipt => {
            if q.receipt_code() == 0 {
                DownloadAction::Confirmed
            } else {
                DownloadAction::Declined
            }
        }
    }
}

// What a request to a download of n segments does.
#[tactic(auto, unfolding(bank_verdicts::specs::Judgement::judge_download, bank_verdicts::specs::Refusals::download_rows, bank_verdicts::specs::Refusals::download_attempt))]
pub fn judge_download(r: TransactionRequest, e: Download, n: u64, q: Fields) -> DownloadAction
    ensures { result ≡ judge_download r e n q }
{
    if fits_download(r, e, n, q) {
        return judge_fitting(r, n, q);
    }
    if MAX_ATTEMPTS <= e.attempts {
        return DownloadAction::Cancelled;
    }
    if is_sent_again(r, e, q) {
        return DownloadAction::SentAgain(n);
    }
    DownloadAction::Point(e.delivered)
}

// The download with its next segment delivered, which is this one.
fn advanced_to(e: Download, clock: u64, delivered: u64) -> Download
    requires { delivered ≡ e.delivered + 1 }
    ensures { result ≡ advanced_to clock e }
{
    Download {
        delivered,
        last: clock,
        ..e
    }
}

// The download with one recovery attempt more.
fn attempted(e: Download) -> Download
    requires { e.attempts < max_attempts }
    ensures { result ≡ attempted e }
{
    Download {
        attempts: e.attempts + 1,
        ..e
    }
}

// A request to an open download of n segments arrives.
#[tactic(auto, unfolding(crate::specs::Downloads::download_step))]
pub fn download_step(
    clock: u64,
    r: TransactionRequest,
    e: Download,
    n: u64,
    q: Fields,
) -> DownloadStep
    ensures { result ≡ download_step clock r e n q }
{
    let action = judge_download(r, e, n, q);
    let entry = match action {
        DownloadAction::Delivered(_) => advanced_to(e, clock, q.segment()),
        DownloadAction::SentAgain(_) | DownloadAction::Point(_) => attempted(e),
        DownloadAction::Opened(_)
        | DownloadAction::Cancelled
        | DownloadAction::Confirmed
        | DownloadAction::Declined => e,
    };
    DownloadStep { entry, action }
}
