// What a call moves: its clock drops first, then its verdict does what it names. Nothing falls below 0.
ghost use Rattle.std.specs.Prelude.{◌≡◌, true, ◌+◌, ◌-◌, ◌^◌, ◌≤◌, ◌<◌};
ghost use Rattle.opening_counts.specs.Counts.{most_moved, can_grow, Room, with_dropped, with_opened, with_booked, with_fetched};
ghost use Rattle.opening_counts.specs.Counts.{with_skipped, with_cancelled, upload_counts, download_counts};
ghost use Rattle.opening_counts.specs.Counts.{verdict_counts, counts_after};

use crate::seven::Counts;
use bank_verdicts::verdict::{Action, DownloadAction, UploadAction, Verdict};

// The difference, 0 where it would fall below.
pub fn less(x: u64, y: u64) -> u64
    ensures { result ≡ x - y }
{
    x.saturating_sub(y)
}

// A function for each event: they move different counts, and no name of a field can be passed.
// So many dropped.
fn with_dropped(n: u64, c: Counts) -> Counts
    requires { c.dropped + n < 2 ^ 64 }
    ensures { result ≡ with_dropped n c }
{
    Counts {
        pending: less(c.pending, n),
        dropped: c.dropped + n,
        ..c
    }
}

// One opened.
fn with_opened(c: Counts) -> Counts
    requires { c.pending + 1 < 2 ^ 64 }
    ensures { result ≡ with_opened c }
{
    Counts {
        pending: c.pending + 1,
        ..c
    }
}

// One booked.
fn with_booked(c: Counts) -> Counts
    requires { c.booked + 1 < 2 ^ 64 }
    ensures { result ≡ with_booked c }
{
    Counts {
        pending: less(c.pending, 1),
        booked: c.booked + 1,
        ..c
    }
}

// One fetched, and so many others of its mailbox ended.
fn with_fetched(others: u64, c: Counts) -> Counts
    requires { (c.fetched + 1 < 2 ^ 64) × (c.ended + others < 2 ^ 64) }
    ensures { result ≡ with_fetched others c }
{
    Counts {
        pending: less(less(c.pending, 1), others),
        fetched: c.fetched + 1,
        ended: c.ended + others,
        ..c
    }
}

// One skipped by its receipt.
fn with_skipped(c: Counts) -> Counts
    requires { c.skipped + 1 < 2 ^ 64 }
    ensures { result ≡ with_skipped c }
{
    Counts {
        pending: less(c.pending, 1),
        skipped: c.skipped + 1,
        ..c
    }
}

// One cancelled.
fn with_cancelled(c: Counts) -> Counts
    requires { c.cancelled + 1 < 2 ^ 64 }
    ensures { result ≡ with_cancelled c }
{
    Counts {
        pending: less(c.pending, 1),
        cancelled: c.cancelled + 1,
        ..c
    }
}

fn upload_counts(action: UploadAction, others: u64, c: Counts) -> Counts
    requires { Room others c }
    ensures { result ≡ upload_counts action c }
{
    match action {
        UploadAction::Opened(_) => with_opened(c),
        UploadAction::Took | UploadAction::Point(_) => c,
        UploadAction::TookLast => with_booked(c),
        UploadAction::Cancelled(_) => with_cancelled(c),
    }
}

fn download_counts(action: DownloadAction, others: u64, c: Counts) -> Counts
    requires { Room others c }
    ensures { result ≡ download_counts action others c }
{
    match action {
        DownloadAction::Opened(_) => with_opened(c),
        DownloadAction::Delivered(_) | DownloadAction::SentAgain(_) | DownloadAction::Point(_) => c,
        DownloadAction::Cancelled => with_cancelled(c),
        DownloadAction::Confirmed => with_fetched(others, c),
        DownloadAction::Declined => with_skipped(c),
    }
}

// A signing is no opening.
fn verdict_counts(verdict: Verdict, others: u64, c: Counts) -> Counts
    requires { Room others c }
    ensures { result ≡ verdict_counts verdict others c }
{
    match verdict {
        Verdict::Unreadable | Verdict::Refused(_) | Verdict::Signed(_, _) => c,
        Verdict::Of(_, Action::Upload(action)) => upload_counts(action, others, c),
        Verdict::Of(_, Action::Download(action)) => download_counts(action, others, c),
    }
}

// The counts after a call with this verdict, whose clock drops so many and whose receipt, answered 011000, ends so many
// other downloads.
pub fn counts_after(verdict: Verdict, gone: u64, others: u64, c: Counts) -> Counts
    requires { (can_grow c ≡ true) × (gone ≤ most_moved) × (others ≤ most_moved) }
    ensures { result ≡ counts_after verdict gone others c }
{
    verdict_counts(verdict, others, with_dropped(gone, c))
}
