// A request to an open upload.
ghost use Rattle.std.specs.Prelude.{◌≡◌, ◌+◌, ◌<◌, ◌≤◌, length, replicate};
ghost use Rattle.frame_table.specs.Names.{segment};
ghost use Rattle.message.specs.Limits.{max_attempts, file_bytes};
ghost use Rattle.octets.specs.Bytes.{overwrite};
ghost use Rattle.bank_state.specs.State.{no_place};
ghost use Rattle.bank_verdicts.specs.Refusals.{fits_upload, is_underrun, is_exceeded, segment_rows};
ghost use Rattle.bank_verdicts.specs.Judgement.{judged, takes, judge_upload};
ghost use Rattle.bank_uploads.specs.Uploads.{grown, booked, attempted, step_of, upload_step};

use bank_state::state::{Place, Use, no_place};
use bank_state::store::{append, clear};
use bank_verdicts::verdict::{TransactionRequest, UploadAction};
use frame_table::fields::Fields;
use message::codes::ReturnCode;
use message::limits::MAX_ATTEMPTS;
use message::segments::is_next;

// The upload's place after a request, and what the request did.
#[derive(Clone, Copy)]
pub struct UploadOut {
    pub place: Place,
    pub action: UploadAction,
}

// Whether the request is the segment that fits.
fn fits_upload(r: TransactionRequest, p: Place, q: Fields) -> bool
    ensures { result ≡ fits_upload r p q }
{
    r == TransactionRequest::UploadTransfer && is_next(q.segment(), p.taken)
}

// Whether a segment below N has last mark 1.
#[tactic(auto, unfolding(bank_verdicts::specs::Refusals::is_underrun))]
fn is_underrun(p: Place, q: Fields) -> bool
    ensures { result ≡ is_underrun p q }
{
    q.segment() < p.segments && q.last_mark() == 1
}

// Whether segment N has last mark 0.
#[tactic(auto, unfolding(bank_verdicts::specs::Refusals::is_exceeded))]
fn is_exceeded(p: Place, q: Fields) -> bool
    ensures { result ≡ is_exceeded p q }
{
    q.segment() == p.segments && q.last_mark() == 0
}

// Segment N books the order.
#[tactic(auto, unfolding(bank_verdicts::specs::Judgement::takes))]
fn takes(p: Place, segment: u64) -> UploadAction
    requires { segment ≡ p.taken + 1 }
    ensures { result ≡ takes p }
{
    if segment == p.segments {
        UploadAction::TookLast
    } else {
        UploadAction::Took
    }
}

// What a segment that fits does, checked in document 01's order: a line for each row of `segment_rows`.
#[tactic(auto, unfolding(bank_verdicts::specs::Refusals::segment_rows))]
fn judge_segment(p: Place, q: Fields) -> UploadAction
    requires { segment q ≡ p.taken + 1 }
    ensures { result ≡ judged (segment_rows p q) (takes p) }
{
    if is_underrun(p, q) {
        return UploadAction::Cancelled(ReturnCode::SegmentNumberUnderrun);
    }
    if is_exceeded(p, q) {
        return UploadAction::Cancelled(ReturnCode::SegmentNumberExceeded);
    }
    takes(p, q.segment())
}

// What a request does.
#[tactic(auto, unfolding(bank_verdicts::specs::Judgement::judge_upload, bank_verdicts::specs::Refusals::upload_rows, bank_verdicts::specs::Refusals::upload_attempt))]
pub fn judge_upload(r: TransactionRequest, p: Place, q: Fields) -> UploadAction
    ensures { result ≡ judge_upload r p q }
{
    if fits_upload(r, p, q) {
        return judge_segment(p, q);
    }
    if p.attempts < MAX_ATTEMPTS {
        return UploadAction::Point(p.taken);
    }
    UploadAction::Cancelled(ReturnCode::TransactionAbort)
}

// The place with one segment of n bytes more, which is segment `taken`.
#[tactic(auto, unfolding(crate::specs::Uploads::grown))]
fn grown(p: Place, clock: u64, taken: u64, n: usize) -> Place
    requires { (taken ≡ p.taken + 1) × (p.length + n ≤ file_bytes) }
    ensures { result ≡ grown clock n p }
{
    Place {
        taken,
        last: clock,
        length: p.length + n as u64,
        ..p
    }
}

// The place with the order booked, after its last segment of n bytes; nobody has signed it.
#[tactic(auto, unfolding(crate::specs::Uploads::booked))]
fn booked(p: Place, n: usize) -> Place
    requires { p.length + n ≤ file_bytes }
    ensures { result ≡ booked n p }
{
    Place {
        used: Use::Booked,
        segments: 0,
        taken: 0,
        attempts: 0,
        last: 0,
        length: p.length + n as u64,
        signers: 0,
        ..p
    }
}

// The place with one recovery attempt more.
#[tactic(auto, unfolding(crate::specs::Uploads::attempted))]
fn attempted(p: Place) -> Place
    requires { p.attempts < max_attempts }
    ensures { result ≡ attempted p }
{
    Place {
        attempts: p.attempts + 1,
        ..p
    }
}

// The segment is written directly behind the bytes already in its place.
fn take(p: Place, data: &[u8], bytes: &mut [u8])
    requires { p.length + length «data».now ≤ length bytes.old }
    ensures { bytes.new ≡ overwrite bytes.old p.length «data».now }
{
    append(bytes, p.length as usize, data);
}

// The place is zeroed and freed.
fn free(bytes: &mut [u8]) -> Place
    ensures { (result ≡ no_place) × (bytes.new ≡ replicate (length bytes.old) 0) }
{
    clear(bytes);
    no_place()
}

// A request to an open upload arrives; `segment` is its data, and `bytes` are the place's bytes, with room for it.
#[tactic(auto, unfolding(crate::specs::Uploads::upload_step))]
pub fn upload_step(
    clock: u64,
    r: TransactionRequest,
    p: Place,
    q: Fields,
    segment: &[u8],
    bytes: &mut [u8],
) -> UploadOut
    requires { (length bytes.old ≡ file_bytes) × (p.length + length segment.now ≤ file_bytes) }
    ensures { step_of result.place bytes.new result.action
        ≡ upload_step clock r p q segment.now bytes.old }
{
    let action = judge_upload(r, p, q);
    let place = match action {
        UploadAction::Opened(_) => p,
        UploadAction::Took => {
            take(p, segment, bytes);
            grown(p, clock, q.segment(), segment.len())
        }
        UploadAction::TookLast => {
            take(p, segment, bytes);
            booked(p, segment.len())
        }
        UploadAction::Point(_) => attempted(p),
        UploadAction::Cancelled(_) => free(bytes),
    };
    UploadOut { place, action }
}
