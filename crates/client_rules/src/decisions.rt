// What fits each step of a run, and what each event leads to.
ghost use Rattle.std.specs.Prelude.{◌≡◌, cond, eqb};
ghost use Rattle.message.specs.Limits.{initialisation_phase, transfer_phase};
ghost use Rattle.client_rules.specs.Decisions.{request_index, reply_index, form_index, says, is_own, download_word, closing_word};
ghost use Rattle.client_rules.specs.Decisions.{rest_word, may_repeat, ends_upload, answers_segment, fits_data, fits_segment};
ghost use Rattle.frame_table.specs.Forms as forms;
ghost use Rattle.message.specs.Editions.{opened_form};
ghost use Rattle.client_rules.specs.Decisions.{is_point, upload_returns, opens_download, lodges, takes_segment};
ghost use Rattle.client_rules.specs.Decisions.{brings_segment, confirms};
ghost use Rattle.client_rules.specs.Decisions.{on_upload, on_download, on_answer, is_answer, on_reply, on_no_reply};

use client_run::run::{ClientRun, Decision, Step, Word};
use frame_table::fields::Fields;
use frame_table::table::{Form, ReplyForm, RequestForm, is_reply_form};
use message::codes::{ReturnCode, code_field};
use message::directions::Direction;
use message::editions::Edition;
use message::limits::{
    INITIALISATION_PHASE, MAX_ATTEMPTS, MAX_SEGMENTS, RECEIPT_PHASE, SEGMENT_BYTES, TRANSFER_PHASE,
};
use message::segments::last_mark_of;

// The place of a form in document 01's list with those of cards 8 and 11, requests first. Numbers, since `says` and
// `is_answer` of specs/ compare forms by them.
fn request_index(form: RequestForm) -> u64
    ensures { result ≡ request_index form }
{
    match form {
        RequestForm::UploadOpening => 1,
        RequestForm::DownloadOpening => 2,
        RequestForm::UploadTransfer => 3,
        RequestForm::DownloadTransfer => 4,
        RequestForm::Receipt => 5,
        RequestForm::Signing => 6,
        RequestForm::ChosenOpening => 7,
    }
}

fn reply_index(form: ReplyForm) -> u64
    ensures { result ≡ reply_index form }
{
    match form {
        ReplyForm::UploadOpened => 8,
        ReplyForm::DownloadOpened => 9,
        ReplyForm::SegmentTaken => 10,
        ReplyForm::DownloadSegment => 11,
        ReplyForm::ReceiptAnswered => 12,
        ReplyForm::Unreadable => 13,
        ReplyForm::Refusal => 14,
    }
}

fn form_index(form: Form) -> u64
    ensures { result ≡ form_index form }
{
    match form {
        Form::NoForm => 0,
        Form::Request(x) => request_index(x),
        Form::Reply(x) => reply_index(x),
    }
}

// Whether the reply is of this form, with this code and this phase.
#[tactic(auto, unfolding(crate::specs::Decisions::says))]
fn says(form: Form, code: ReturnCode, phase: u64, r: Fields) -> bool
    ensures { result ≡ says form code phase r }
{
    form_index(r.form()) == form_index(form)
        && r.return_code() == code_field(code)
        && r.phase() == phase
}

// Whether the reply has the run's transaction ID.
#[tactic(auto, unfolding(crate::specs::Decisions::is_own))]
fn is_own(c: ClientRun, r: Fields) -> bool
    ensures { result ≡ is_own c r }
{
    r.transaction() == c.transaction
}

// The closing word of an upload where nothing else is said.
fn upload_word(c: ClientRun) -> Word
    ensures { result ≡ closing_word Direction.Upload c }
{
    if c.issued < c.segments {
        Word::NotLodged
    } else {
        Word::Unclear
    }
}

// The closing word of a download where nothing else is said.
fn download_word(step: Step) -> Word
    ensures { result ≡ download_word step }
{
    match step {
        Step::Opening | Step::Segment => Word::NotFetched,
        Step::Receipt => Word::HeldUnconfirmed,
    }
}

// The closing word where nothing else is said.
#[tactic(auto, unfolding(crate::specs::Decisions::rest_word))]
fn rest_word(c: ClientRun) -> Word
    ensures { result ≡ rest_word c }
{
    match c.direction {
        Direction::Upload => upload_word(c),
        Direction::Download => download_word(c.step),
    }
}

// Whether another repeat or return is left.
#[tactic(auto, unfolding(crate::specs::Decisions::may_repeat))]
fn may_repeat(c: ClientRun) -> bool
    ensures { result ≡ may_repeat c }
{
    c.repeats < MAX_ATTEMPTS
}

// Whether the reply refuses a segment with this code.
fn refuses(code: ReturnCode, r: Fields) -> bool
    ensures { result ≡ says forms.Refusal code transfer_phase r }
{
    says(Form::Reply(ReplyForm::Refusal), code, TRANSFER_PHASE, r)
}

// Whether the reply is a refusal that ends an upload as not lodged.
#[tactic(auto, unfolding(crate::specs::Decisions::ends_upload))]
fn ends_upload(r: Fields) -> bool
    ensures { result ≡ ends_upload r }
{
    refuses(ReturnCode::TransactionAbort, r)
        || refuses(ReturnCode::SegmentNumberExceeded, r)
        || refuses(ReturnCode::SegmentNumberUnderrun, r)
}

// Whether the reply answers the outstanding segment in this form, its data aside.
#[tactic(auto, unfolding(crate::specs::Decisions::answers_segment))]
fn answers_segment(form: Form, c: ClientRun, r: Fields) -> bool
    ensures { result ≡ answers_segment form c r }
{
    says(form, ReturnCode::Ok, TRANSFER_PHASE, r) && is_own(c, r) && r.segment() == c.segment
}

// Whether d bytes of data fit segment s of n.
#[tactic(auto, unfolding(crate::specs::Decisions::fits_data))]
fn fits_data(s: u64, n: u64, d: usize) -> bool
    ensures { result ≡ fits_data s n d }
{
    if s == n {
        (1..=SEGMENT_BYTES).contains(&d)
    } else {
        d == SEGMENT_BYTES
    }
}

// Whether the reply's last mark and d bytes of data fit segment s of n.
#[tactic(auto, unfolding(crate::specs::Decisions::fits_segment))]
fn fits_segment(s: u64, n: u64, d: usize, r: Fields) -> bool
    ensures { result ≡ fits_segment s n d r }
{
    (1..=n).contains(&s)
        && n <= MAX_SEGMENTS
        && r.last_mark() == last_mark_of(s, n)
        && fits_data(s, n, d)
}

// The phase of an upload's recovery point after a segment.
fn point_phase(segment: u64) -> u64
    ensures { result ≡ cond (eqb segment 0) initialisation_phase transfer_phase }
{
    if segment == 0 {
        INITIALISATION_PHASE
    } else {
        TRANSFER_PHASE
    }
}

// Whether the reply is a recovery point of the upload.
#[tactic(auto, unfolding(crate::specs::Decisions::is_point))]
fn is_point(c: ClientRun, r: Fields) -> bool
    ensures { result ≡ is_point c r }
{
    let phase = point_phase(r.segment());
    let form = Form::Reply(ReplyForm::SegmentTaken);
    says(form, ReturnCode::RecoverySync, phase, r) && is_own(c, r)
}

// Whether the reply is a recovery point that the upload goes on from: before segment N, at most the last issued, and a
// return left.
#[tactic(auto, unfolding(crate::specs::Decisions::upload_returns))]
fn upload_returns(c: ClientRun, r: Fields) -> bool
    ensures { result ≡ upload_returns c r }
{
    let point = r.segment();
    is_point(c, r) && point < c.segments && point <= c.issued && may_repeat(c)
}

// Whether the reply, with d bytes of data, answers a download's opening.
#[tactic(auto, unfolding(crate::specs::Decisions::opens_download))]
fn opens_download(d: usize, r: Fields) -> bool
    ensures { result ≡ opens_download d r }
{
    let form = Form::Reply(ReplyForm::DownloadOpened);
    says(form, ReturnCode::Ok, INITIALISATION_PHASE, r)
        && r.segment() == 1
        && fits_segment(1, r.segments(), d, r)
}

// The form in which an upload's opening is answered: edition 2.4's reply leaves the order number out.
fn opened_form(edition: Edition) -> Form
    ensures { result ≡ opened_form edition }
{
    match edition {
        Edition::V24 => Form::Reply(ReplyForm::ReceiptAnswered),
        Edition::V25 => Form::Reply(ReplyForm::UploadOpened),
    }
}

// An upload's opening is outstanding.
#[tactic(auto, unfolding(crate::specs::Decisions::on_upload))]
fn on_upload_opening(c: ClientRun, r: Fields) -> Decision
    ensures { result ≡ on_upload Step.Opening c r }
{
    let form = opened_form(c.terms.edition);
    if says(form, ReturnCode::Ok, INITIALISATION_PHASE, r) {
        Decision::Opened
    } else {
        Decision::Close(rest_word(c))
    }
}

// Whether the reply answers segment N of an upload.
#[tactic(auto, unfolding(crate::specs::Decisions::lodges))]
fn lodges(c: ClientRun, r: Fields) -> bool
    ensures { result ≡ lodges c r }
{
    answers_segment(Form::Reply(ReplyForm::SegmentTaken), c, r) && c.segment == c.segments
}

// Whether the reply answers an earlier segment of an upload.
#[tactic(auto, unfolding(crate::specs::Decisions::takes_segment))]
fn takes_segment(c: ClientRun, r: Fields) -> bool
    ensures { result ≡ takes_segment c r }
{
    answers_segment(Form::Reply(ReplyForm::SegmentTaken), c, r) && c.segment < c.segments
}

// An upload's segment is outstanding.
#[tactic(auto, unfolding(crate::specs::Decisions::on_upload))]
fn on_upload_segment(c: ClientRun, r: Fields) -> Decision
    ensures { result ≡ on_upload Step.Segment c r }
{
    if lodges(c, r) {
        Decision::Close(Word::Lodged)
    } else if takes_segment(c, r) {
        Decision::Advance
    } else if upload_returns(c, r) {
        Decision::Return(r.segment())
    } else if ends_upload(r) {
        Decision::Close(Word::NotLodged)
    } else {
        Decision::Close(rest_word(c))
    }
}

// A download's opening is outstanding.
#[tactic(auto, unfolding(crate::specs::Decisions::on_download))]
fn on_download_opening(c: ClientRun, r: Fields, d: usize) -> Decision
    ensures { result ≡ on_download Step.Opening c r d }
{
    if opens_download(d, r) {
        Decision::Opened
    } else {
        Decision::Close(rest_word(c))
    }
}

// Whether the reply, with d bytes of data, brings the outstanding segment of a download.
#[tactic(auto, unfolding(crate::specs::Decisions::brings_segment))]
fn brings_segment(c: ClientRun, r: Fields, d: usize) -> bool
    ensures { result ≡ brings_segment c r d }
{
    answers_segment(Form::Reply(ReplyForm::DownloadSegment), c, r)
        && fits_segment(c.segment, c.segments, d, r)
}

// A download's segment is outstanding.
#[tactic(auto, unfolding(crate::specs::Decisions::on_download))]
fn on_download_segment(c: ClientRun, r: Fields, d: usize) -> Decision
    ensures { result ≡ on_download Step.Segment c r d }
{
    if brings_segment(c, r, d) {
        Decision::Advance
    } else {
        Decision::Close(rest_word(c))
    }
}

// Whether the reply answers the receipt.
#[tactic(auto, unfolding(crate::specs::Decisions::confirms))]
fn confirms(c: ClientRun, r: Fields) -> bool
    ensures { result ≡ confirms c r }
{
    let form = Form::Reply(ReplyForm::ReceiptAnswered);
    says(form, ReturnCode::DownloadPostprocessDone, RECEIPT_PHASE, r) && is_own(c, r)
}

// A receipt is outstanding.
#[tactic(auto, unfolding(crate::specs::Decisions::on_download))]
fn on_receipt(c: ClientRun, r: Fields) -> Decision
    ensures { result ≡ on_download Step.Receipt c r 0 }
{
    if confirms(c, r) {
        Decision::Close(Word::Fetched)
    } else {
        Decision::Close(rest_word(c))
    }
}

// The outstanding request is answered by a reply with d bytes of data. An upload has no receipt.
#[tactic(auto, unfolding(crate::specs::Decisions::on_upload, crate::specs::Decisions::on_download))]
fn on_answer(c: ClientRun, r: Fields, d: usize) -> Decision
    ensures { result ≡ on_answer c.direction c r d }
{
    match (c.direction, c.step) {
        (Direction::Upload, Step::Opening) => on_upload_opening(c, r),
        (Direction::Upload, Step::Segment) => on_upload_segment(c, r),
        (Direction::Upload, Step::Receipt) => Decision::Close(rest_word(c)),
        (Direction::Download, Step::Opening) => on_download_opening(c, r, d),
        (Direction::Download, Step::Segment) => on_download_segment(c, r, d),
        (Direction::Download, Step::Receipt) => on_receipt(c, r),
    }
}

// Whether the reply answers the outstanding request.
#[tactic(auto, unfolding(crate::specs::Decisions::is_answer))]
fn is_answer(c: ClientRun, r: Fields) -> bool
    ensures { result ≡ is_answer c r }
{
    let form = r.form();
    is_reply_form(form)
        && form_index(form) != form_index(Form::Reply(ReplyForm::Unreadable))
        && r.exchange() == c.exchange
}

// A reply arrived, with d bytes of data.
#[tactic(auto, unfolding(crate::specs::Decisions::on_reply))]
pub fn on_reply(c: ClientRun, r: Fields, d: usize) -> Decision
    ensures { result ≡ on_reply c r d }
{
    if is_answer(c, r) {
        on_answer(c, r, d)
    } else {
        Decision::Ignore
    }
}

// No reply came.
#[tactic(auto, unfolding(crate::specs::Decisions::on_no_reply))]
pub fn on_no_reply(c: ClientRun) -> Decision
    ensures { result ≡ on_no_reply c }
{
    if may_repeat(c) {
        Decision::Repeat
    } else {
        Decision::Close(rest_word(c))
    }
}
