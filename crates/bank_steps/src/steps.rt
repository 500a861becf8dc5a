// A request, read, at the clock that the call has set: it is judged once, and its verdict is carried out. Rows, orders
// and mailboxes are lent one by one, since each function borrows those alone that it may write.
ghost use Rattle.std.specs.Prelude.{◌≡◌, List, ℕ, ◌<◌, ◌≤◌, length};
ghost use Rattle.frame_table.specs.Names.{subscriber};
ghost use Rattle.message.specs.Limits.{subscribers, segment_bytes};
ghost use Rattle.bank_state.specs.Limits.{place_count, store_bytes};
ghost use Rattle.bank_state.specs.State.{download_at};
ghost use Rattle.bank_rows.specs.State.{bank_of, Laid};
ghost use Rattle.bank_sound.specs.Sound.{InRange};
ghost use Rattle.bank_verdicts.specs.Judgement.{judge_opening, judge_signing, upload_at, download_of, judge_transaction};
ghost use Rattle.bank_verdicts.specs.Judgement.{judge_request, judge};
ghost use Rattle.bank_signing.specs.Signings.{SignerSets};
ghost use Rattle.bank_downloads.specs.Downloads.{download_after};
ghost use Rattle.bank_steps.specs.Steps.{emptied, on_download, upload_verdict, download_verdict, target_of};
ghost use Rattle.bank_steps.specs.Lent.{lent, state_of, kept_in, Prepared, Ready, CarriedOut};

use crate::mailboxes::{is_no_mailbox, mailbox_of};
use bank_downloads::downloads::{DownloadStep, download_step};
use bank_lists::downloads::{download_at, end_downloads, find_download, set_download};
use bank_openings::judgement::{judge_opening, mailbox_segments};
use bank_openings::openings::{open_download, open_upload};
use bank_rows::numbers::{clock, set_file_length};
use bank_rows::places::{find_upload, place_at, set_place};
use bank_signing::judgement::judge_signing;
use bank_signing::signing::sign;
use bank_state::clock::Ended;
use bank_state::limits::PLACE_COUNT;
use bank_state::store::zero;
use bank_uploads::uploads::upload_step;
use bank_verdicts::verdict::{
    Action, Context, DownloadAction, TransactionRequest, Verdict, opened_number,
};
use frame_table::fields::Fields;
use frame_table::table::{Form, RequestForm};
use message::codes::ReturnCode;
use message::directions::Direction;
use message::limits::{FILE_BYTES, SEGMENT_BYTES};

// An opening of this direction, of either edition.
fn opening(rows: &mut [u64], direction: Direction, context: Context, q: Fields) -> Verdict
    requires { Laid rows.old }
    ensures { (o m d : List ℕ) →
        CarriedOut (judge_opening direction context (bank_of rows.old) q)
        (lent rows.old o m) q d result (lent rows.new o m) }
{
    let verdict = judge_opening(rows, direction, context, q);
    match (verdict, direction) {
        (Verdict::Of(transaction, action), Direction::Upload) => {
            open_upload(rows, transaction, opened_number(action), q);
            verdict
        }
        (Verdict::Of(transaction, _), Direction::Download) => {
            open_download(rows, transaction, q);
            verdict
        }
        _ => verdict,
    }
}

// A signing.
fn signing(rows: &mut [u64], q: Fields) -> Verdict
    requires { Laid rows.old × SignerSets (bank_of rows.old) }
    ensures { (o m d : List ℕ) → CarriedOut (judge_signing (bank_of rows.old) q)
        (lent rows.old o m) q d result (lent rows.new o m) }
{
    let verdict = judge_signing(rows, q);
    match verdict {
        Verdict::Signed(_, _) => {
            sign(rows, q);
            verdict
        }
        _ => verdict,
    }
}

// A request to the open upload found in place i.
fn on_upload(
    rows: &mut [u64],
    i: usize,
    asked: TransactionRequest,
    q: Fields,
    bytes: &[u8],
    orders: &mut [u8],
) -> Verdict
    requires { Laid rows.old × InRange (bank_of rows.old) × (i < place_count) × (i ≡ upload_at (bank_of rows.old) q)
        × (length bytes.now ≤ segment_bytes) × (length orders.old ≡ store_bytes) }
    ensures { (m : List ℕ) →
        CarriedOut (upload_verdict asked i (bank_of rows.old) q)
        (lent rows.old orders.old m) q bytes.now
        result (lent rows.new orders.new m) }
{
    let p = place_at(rows, i);
    let time = clock(rows);
    let from = i * FILE_BYTES;
    let end = from + FILE_BYTES;
    let u = upload_step(time, asked, p, q, bytes, &mut orders[from..end]);
    set_place(rows, i, u.place);
    Verdict::Of(p.transaction, Action::Upload(u.action))
}

// A subscriber's mailbox is emptied, and its downloads end.
fn emptied(rows: &mut [u64], subscriber: u64, mailboxes: &mut [u8])
    requires { Laid rows.old × (0 < subscriber) × (subscriber ≤ subscribers)
        × (length mailboxes.old ≡ store_bytes) }
    ensures { (o : List ℕ) → lent rows.new o mailboxes.new
        ≡ kept_in (lent rows.old o mailboxes.old)
        (emptied subscriber (state_of (lent rows.old o mailboxes.old))) }
{
    let m = mailbox_of(subscriber);
    end_downloads(rows, Ended::Mailbox(subscriber));
    set_file_length(rows, m, 0);
    zero(mailboxes, m);
}

// The step of the open download of record j carried out, and on its mailbox's bytes.
fn downloads_after(rows: &mut [u64], j: usize, s: DownloadStep, q: Fields, mailboxes: &mut [u8])
    requires { Laid rows.old × (j < place_count) × (j ≡ download_of (bank_of rows.old) q)
        × (s.entry ≡ download_after s.action (bank_of rows.old).clock (download_at (bank_of rows.old) j))
        × (0 < subscriber q) × (subscriber q ≤ subscribers) × (length mailboxes.old ≡ store_bytes) }
    ensures { (o : List ℕ) → lent rows.new o mailboxes.new
        ≡ kept_in (lent rows.old o mailboxes.old)
        (on_download s.action j (state_of (lent rows.old o mailboxes.old)) q) }
{
    match s.action {
        DownloadAction::Cancelled | DownloadAction::Declined => {
            end_downloads(rows, Ended::Transaction(q.subscriber(), q.transaction()));
        }
        DownloadAction::Confirmed => {
            emptied(rows, q.subscriber(), mailboxes);
        }
        _ => set_download(rows, j, s.entry),
    }
}

// A request to the open download found in record j.
fn on_download(
    rows: &mut [u64],
    j: usize,
    asked: TransactionRequest,
    q: Fields,
    mailboxes: &mut [u8],
) -> Verdict
    requires { Laid rows.old × (j < place_count) × (j ≡ download_of (bank_of rows.old) q)
        × (0 < subscriber q) × (subscriber q ≤ subscribers) × (length mailboxes.old ≡ store_bytes) }
    ensures { (o d : List ℕ) → CarriedOut (download_verdict asked j (bank_of rows.old) q)
        (lent rows.old o mailboxes.old) q d
        result (lent rows.new o mailboxes.new) }
{
    let e = download_at(rows, j);
    let time = clock(rows);
    let n = mailbox_segments(rows, q.subscriber());
    let s = download_step(time, asked, e, n, q);
    downloads_after(rows, j, s, q, mailboxes);
    Verdict::Of(e.transaction, Action::Download(s.action))
}

// A request to a transaction: an open upload's, an open download's, or one that is not open.
fn on_transaction(
    rows: &mut [u64],
    asked: TransactionRequest,
    q: Fields,
    bytes: &[u8],
    orders: &mut [u8],
    mailboxes: &mut [u8],
) -> Verdict
    requires { Ready q bytes.now rows.old orders.old mailboxes.old }
    ensures { CarriedOut (judge_transaction asked (bank_of rows.old) q)
        (lent rows.old orders.old mailboxes.old) q bytes.now
        result (lent rows.new orders.new mailboxes.new) }
{
    let subscriber = q.subscriber();
    let id = q.transaction();
    let i = find_upload(rows, subscriber, id.high, id.low);
    if i < PLACE_COUNT {
        return on_upload(rows, i, asked, q, bytes, orders);
    }
    let j = find_download(rows, subscriber, id.high, id.low);
    if j < PLACE_COUNT {
        return on_download(rows, j, asked, q, mailboxes);
    }
    Verdict::Refused(ReturnCode::UnknownTransaction)
}

// What a request is on: an opening of either direction, a transaction, or a booked order that is signed.
#[derive(Clone, Copy)]
pub enum Target {
    UploadOpening,
    DownloadOpening,
    Transaction(TransactionRequest),
    Signing,
}

fn target_of(request: RequestForm) -> Target
    ensures { result ≡ target_of request }
{
    match request {
        RequestForm::UploadOpening | RequestForm::ChosenOpening => Target::UploadOpening,
        RequestForm::DownloadOpening => Target::DownloadOpening,
        RequestForm::UploadTransfer => Target::Transaction(TransactionRequest::UploadTransfer),
        RequestForm::DownloadTransfer => Target::Transaction(TransactionRequest::DownloadTransfer),
        RequestForm::Receipt => Target::Transaction(TransactionRequest::Receipt),
        RequestForm::Signing => Target::Signing,
    }
}

// A readable request of a subscriber, by its form.
fn by_request(
    request: RequestForm,
    rows: &mut [u64],
    context: Context,
    q: Fields,
    bytes: &[u8],
    orders: &mut [u8],
    mailboxes: &mut [u8],
) -> Verdict
    requires { Ready q bytes.now rows.old orders.old mailboxes.old }
    ensures { CarriedOut
        (judge_request request context (bank_of rows.old) q)
        (lent rows.old orders.old mailboxes.old) q bytes.now
        result (lent rows.new orders.new mailboxes.new) }
{
    match target_of(request) {
        Target::UploadOpening => opening(rows, Direction::Upload, context, q),
        Target::DownloadOpening => opening(rows, Direction::Download, context, q),
        Target::Transaction(asked) => on_transaction(rows, asked, q, bytes, orders, mailboxes),
        Target::Signing => signing(rows, q),
    }
}

// A request: judged in document 01's order, a line for each row of `request_rows`, and carried out.
pub fn step(
    rows: &mut [u64],
    context: Context,
    q: Fields,
    bytes: &[u8],
    orders: &mut [u8],
    mailboxes: &mut [u8],
) -> Verdict
    requires { Prepared rows.old orders.old mailboxes.old }
    ensures { CarriedOut (judge context (bank_of rows.old) q (length bytes.now))
        (lent rows.old orders.old mailboxes.old) q bytes.now
        result (lent rows.new orders.new mailboxes.new) }
{
    let Form::Request(request) = q.form() else {
        return Verdict::Unreadable;
    };
    if is_no_mailbox(q.subscriber()) {
        return Verdict::Refused(ReturnCode::UserUnknown);
    }
    if SEGMENT_BYTES < bytes.len() {
        return Verdict::Refused(ReturnCode::SegmentSizeExceeded);
    }
    by_request(request, rows, context, q, bytes, orders, mailboxes)
}
