// How an opening is judged: each refusal's test by its name in document 01's list, then the list from top to bottom.
ghost use Rattle.std.specs.Prelude.{◌≡◌, false, ◌||◌, leb};
ghost use Rattle.bank_state.specs.Limits.{series_limit};
ghost use Rattle.bank_state.specs.Numbers.{next_number};
ghost use Rattle.bank_rows.specs.State.{bank_of, Laid};
ghost use Rattle.bank_verdicts.specs.Judgement.{opening_number, accepted, judge_opening, mailbox_segments};
ghost use Rattle.bank_verdicts.specs.Refusals.{unknown_type, no_order_number, other_direction, many_segments, in_time, is_replay};
ghost use Rattle.bank_verdicts.specs.Refusals.{is_held, empty_mailbox, many_open, no_place_free};
ghost use Rattle.bank_verdicts.specs.Refusals.{series_ended, is_full, no_share};

use crate::own_numbers::next_number;
use bank_lists::counts::{open_count, open_count_of};
use bank_lists::nonces::{is_remembered, nonce_count};
use bank_rows::numbers::{clock, file_length_of, openings, series_of};
use bank_rows::places::{free_place, is_number_held};
use bank_state::limits::{
    MAX_OPEN, MAX_OPEN_PER_SUBSCRIBER, MAX_OPENINGS, NONCE_COUNT, PLACE_COUNT, SERIES_LIMIT,
    SHARED_OPEN, SURE_OPEN, WINDOW,
};
use bank_verdicts::verdict::{Action, Context, DownloadAction, UploadAction, Verdict};
use frame_table::fields::{Bits128, Fields};
use message::codes::ReturnCode;
use message::directions::Direction;
use message::editions::{Edition, edition_of};
use message::limits::{FDL, FUL, MAX_SEGMENTS};
use message::order_numbers::{is_order_number, order_in};
use message::segments::segments_of;

// 091005: order type neither FUL nor FDL.
#[tactic(auto, unfolding(bank_verdicts::specs::Refusals::unknown_type))]
pub fn unknown_type(q: Fields) -> bool
    ensures { result ≡ unknown_type q }
{
    let order_type = q.order_type();
    order_type != FUL && order_type != FDL
}

// 061002 of an opening of edition 2.4: its order number is none of A000 to ZZZZ.
fn no_order_number(q: Fields) -> bool
    ensures { result ≡ no_order_number q }
{
    match edition_of(q) {
        Edition::V24 => !is_order_number(q.order_number()),
        Edition::V25 => false,
    }
}

// 061002: opening form of the other direction, 0 segments, or no order number.
fn other_direction(d: Direction, q: Fields) -> bool
    ensures { result ≡ other_direction d q }
{
    match d {
        Direction::Upload => q.order_type() == FDL || q.segments() == 0 || no_order_number(q),
        Direction::Download => q.order_type() == FUL,
    }
}

// 091118: too many segments.
#[tactic(auto, unfolding(bank_verdicts::specs::Refusals::many_segments))]
fn many_segments(q: Fields) -> bool
    ensures { result ≡ many_segments q }
{
    MAX_SEGMENTS < q.segments()
}

// Whether a timestamp differs from the clock by at most WINDOW milliseconds.
#[tactic(auto, unfolding(bank_verdicts::specs::Refusals::in_time))]
fn in_time(time: u64, clock: u64) -> bool
    ensures { result ≡ in_time time clock }
{
    time.abs_diff(clock) <= WINDOW
}

// 091103: timestamp not in time, or nonce remembered.
#[tactic(auto, unfolding(bank_verdicts::specs::Refusals::is_replay))]
pub fn is_replay(rows: &[u64], q: Fields) -> bool
    requires { Laid rows.now }
    ensures { result ≡ is_replay (bank_of rows.now) q }
{
    let nonce = q.nonce();
    !in_time(q.timestamp(), clock(rows)) || is_remembered(rows, nonce.high, nonce.low)
}

// 091115: the order number that an opening of edition 2.4 brings is held.
fn is_held(rows: &[u64], q: Fields) -> bool
    requires { Laid rows.now }
    ensures { result ≡ is_held (bank_of rows.now) q }
{
    match edition_of(q) {
        Edition::V24 => is_number_held(rows, q.subscriber(), order_in(q.order_number())),
        Edition::V25 => false,
    }
}

// 090005: download, mailbox empty.
fn empty_mailbox(rows: &[u64], d: Direction, q: Fields) -> bool
    requires { Laid rows.now }
    ensures { result ≡ empty_mailbox d (bank_of rows.now) q }
{
    d == Direction::Download && file_length_of(rows, q.subscriber()) == 0
}

// 091119: the subscriber has 4 open transactions.
#[tactic(auto, unfolding(bank_verdicts::specs::Refusals::many_open))]
fn many_open(rows: &[u64], q: Fields) -> bool
    requires { Laid rows.now }
    ensures { result ≡ many_open (bank_of rows.now) q }
{
    MAX_OPEN_PER_SUBSCRIBER <= open_count_of(rows, q.subscriber())
}

// An upload with 8 places in use.
fn no_place_free(rows: &[u64], d: Direction) -> bool
    requires { Laid rows.now }
    ensures { result ≡ no_place_free d (bank_of rows.now) }
{
    d == Direction::Upload && PLACE_COUNT <= free_place(rows)
}

// Whether the bank's own numbering of a subscriber's uploads is past ZZZZ.
fn is_past(rows: &[u64], subscriber: u64) -> bool
    requires { Laid rows.now }
    ensures { result ≡ leb series_limit (next_number subscriber (bank_of rows.now)) }
{
    SERIES_LIMIT <= series_of(rows, subscriber) || SERIES_LIMIT <= next_number(rows, subscriber)
}

// An upload at the end of its subscriber's series; an opening of edition 2.4 needs no number of the bank's.
fn series_ended(rows: &[u64], d: Direction, q: Fields) -> bool
    requires { Laid rows.now }
    ensures { result ≡ series_ended d (bank_of rows.now) q }
{
    match (d, edition_of(q)) {
        (Direction::Upload, Edition::V25) => is_past(rows, q.subscriber()),
        _ => false,
    }
}

// 061099: 8 transactions open, an upload with 8 places in use, 64 nonces remembered, the end of the upload's
// series, or 4,294,967,296 openings accepted.
#[tactic(auto, unfolding(bank_verdicts::specs::Refusals::is_full))]
fn is_full(rows: &[u64], d: Direction, q: Fields) -> bool
    requires { Laid rows.now }
    ensures { result ≡ is_full d (bank_of rows.now) q }
{
    MAX_OPEN <= open_count(rows)
        || no_place_free(rows, d)
        || NONCE_COUNT <= nonce_count(rows)
        || series_ended(rows, d, q)
        || MAX_OPENINGS <= openings(rows)
}

// A bank with two or more open finds no share left by the others.
#[tactic(auto, unfolding(bank_verdicts::specs::Refusals::no_share))]
fn no_share(rows: &[u64], others: u64) -> bool
    requires { Laid rows.now }
    ensures { result ≡ no_share others (bank_of rows.now) }
{
    let open = open_count(rows) as u64;
    SURE_OPEN <= open && SHARED_OPEN.saturating_sub(others) <= open
}

// 061099: the bank's own limits, or no share left.
fn no_room(rows: &[u64], d: Direction, others: u64, q: Fields) -> bool
    requires { Laid rows.now }
    ensures { result ≡ (is_full d (bank_of rows.now) q || no_share others (bank_of rows.now)) }
{
    is_full(rows, d, q) || no_share(rows, others)
}

// The number of segments of a subscriber's mailbox.
pub fn mailbox_segments(rows: &[u64], subscriber: u64) -> u64
    requires { Laid rows.now }
    ensures { result ≡ mailbox_segments subscriber (bank_of rows.now) }
{
    segments_of(file_length_of(rows, subscriber))
}

// The number of an upload: the one that it brings, or the bank's own.
#[tactic(auto, unfolding(bank_verdicts::specs::Judgement::opening_number))]
fn opening_number(rows: &[u64], q: Fields) -> u64
    requires { Laid rows.now × (series_ended Direction.Upload (bank_of rows.now) q ≡ false) }
    ensures { result ≡ opening_number (bank_of rows.now) q }
{
    match edition_of(q) {
        Edition::V24 => order_in(q.order_number()),
        Edition::V25 => next_number(rows, q.subscriber()),
    }
}

// An accepted opening: its transaction ID is the lent bytes and its running number.
fn accepted(rows: &[u64], d: Direction, first: u64, q: Fields) -> Verdict
    requires { Laid rows.now × (series_ended d (bank_of rows.now) q ≡ false) }
    ensures { result ≡ accepted d first (bank_of rows.now) q }
{
    let transaction = Bits128 {
        high: first,
        low: openings(rows),
    };
    let action = match d {
        Direction::Upload => Action::Upload(UploadAction::Opened(opening_number(rows, q))),
        Direction::Download => {
            Action::Download(DownloadAction::Opened(mailbox_segments(rows, q.subscriber())))
        }
    };
    Verdict::Of(transaction, action)
}

// An opening in the form of this direction, judged in document 01's order: a line for each row of `opening_rows`.
#[tactic(auto, unfolding(bank_verdicts::specs::Judgement::judge_opening, bank_verdicts::specs::Refusals::opening_rows))]
pub fn judge_opening(rows: &[u64], d: Direction, context: Context, q: Fields) -> Verdict
    requires { Laid rows.now }
    ensures { result ≡ judge_opening d context (bank_of rows.now) q }
{
    if unknown_type(q) {
        return Verdict::Refused(ReturnCode::InvalidOrderType);
    }
    if other_direction(d, q) {
        return Verdict::Refused(ReturnCode::InvalidRequest);
    }
    if many_segments(q) {
        return Verdict::Refused(ReturnCode::MaxSegmentsExceeded);
    }
    if is_replay(rows, q) {
        return Verdict::Refused(ReturnCode::MessageReplay);
    }
    if is_held(rows, q) {
        return Verdict::Refused(ReturnCode::OrderIdAlreadyExists);
    }
    if empty_mailbox(rows, d, q) {
        return Verdict::Refused(ReturnCode::NoDownloadDataAvailable);
    }
    if many_open(rows, q) {
        return Verdict::Refused(ReturnCode::MaxTransactionsExceeded);
    }
    if no_room(rows, d, context.others, q) {
        return Verdict::Refused(ReturnCode::InternalError);
    }
    accepted(rows, d, context.prefix, q)
}
