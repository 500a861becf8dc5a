// The conditions of one record, each under its label.
ghost use Rattle.std.specs.Prelude.{◌≡◌, ◌<◌};
ghost use Rattle.journal.specs.Events.{record_count};
ghost use Rattle.image_records.specs.Shapes.{up_to};
ghost use Rattle.image_records.specs.Records.{fit_time, nonce_time, download_subscriber, download_delivered};
ghost use Rattle.image_records.specs.Records.{download_attempts, download_time, download_number, download_holds};
ghost use Rattle.image_records.specs.Records.{place_state, place_free, place_subscriber, place_number, place_order};
ghost use Rattle.image_records.specs.Records.{upload_segments, upload_taken, upload_attempts, upload_time};
ghost use Rattle.image_records.specs.Records.{upload_length, upload_signers, booked_length, booked_rest, place_holds};
ghost use Rattle.image_records.specs.Records.{event_number, event_clock, event_subscriber, event_type, event_order};
ghost use Rattle.image_records.specs.Records.{event_running, event_kind, event_holds};

use crate::layout::{DownloadRecord, EventRecord, NonceRecord, PlaceRecord};
use crate::tests::{at_most_segments, at_most_sum, implies, up_to, within};
use bank_state::limits::{IDLE_LIMIT, SERIES_LIMIT, WINDOW};
use frame_table::table::LAST_TIME;
use message::limits::{FILE_BYTES, FUL, MAX_ATTEMPTS, MAX_SEGMENTS, SUBSCRIBERS};
use message::segments::segments_of;

const OPEN: u64 = 1;

const BOOKED: u64 = 2;

// The last of the kinds that an event may have.
const LAST_KIND: u64 = 5;

// The last fitting request of what is open is at most the idle limit behind the clock.
fn fit_time(clock: u64, last: u64) -> bool
    ensures { result ≡ fit_time clock last }
{
    last <= clock && at_most_sum(clock, last, IDLE_LIMIT)
}

pub fn nonce_time(clock: u64, n: NonceRecord) -> bool
    ensures { result ≡ nonce_time clock n }
{
    let t = n.timestamp;
    at_most_sum(clock, t, WINDOW) && at_most_sum(t, clock, WINDOW) && t <= LAST_TIME
}

fn download_subscriber(d: DownloadRecord) -> bool
    ensures { result ≡ download_subscriber d }
{
    within(1, SUBSCRIBERS, d.subscriber)
}

fn download_delivered(file: u64, d: DownloadRecord) -> bool
    ensures { result ≡ download_delivered file d }
{
    within(1, segments_of(file), d.delivered)
}

fn download_attempts(d: DownloadRecord) -> bool
    ensures { result ≡ download_attempts d }
{
    d.attempts <= MAX_ATTEMPTS
}

fn download_time(clock: u64, d: DownloadRecord) -> bool
    ensures { result ≡ download_time clock d }
{
    fit_time(clock, d.last)
}

fn download_number(openings: u64, d: DownloadRecord) -> bool
    ensures { result ≡ download_number openings d }
{
    d.low < openings
}

// An open download, with the file length of its subscriber's mailbox.
pub fn download_holds(clock: u64, openings: u64, file: u64, d: DownloadRecord) -> bool
    ensures { result ≡ download_holds clock openings file d }
{
    download_subscriber(d)
        && download_delivered(file, d)
        && download_attempts(d)
        && download_time(clock, d)
        && download_number(openings, d)
}

fn place_state(p: PlaceRecord) -> bool
    ensures { result ≡ place_state p }
{
    p.state <= BOOKED
}

fn place_free(p: PlaceRecord) -> bool
    ensures { result ≡ place_free p }
{
    implies(p.state == 0, p == PlaceRecord::default())
}

fn place_subscriber(p: PlaceRecord) -> bool
    ensures { result ≡ place_subscriber p }
{
    implies(0 < p.state, within(1, SUBSCRIBERS, p.subscriber))
}

fn place_number(openings: u64, p: PlaceRecord) -> bool
    ensures { result ≡ place_number openings p }
{
    implies(0 < p.state, p.low < openings)
}

fn place_order(p: PlaceRecord) -> bool
    ensures { result ≡ place_order p }
{
    implies(0 < p.state, p.order < SERIES_LIMIT)
}

fn upload_segments(p: PlaceRecord) -> bool
    ensures { result ≡ upload_segments p }
{
    implies(p.state == OPEN, within(1, MAX_SEGMENTS, p.segments))
}

fn upload_taken(p: PlaceRecord) -> bool
    ensures { result ≡ upload_taken p }
{
    implies(p.state == OPEN, p.taken < p.segments)
}

fn upload_attempts(p: PlaceRecord) -> bool
    ensures { result ≡ upload_attempts p }
{
    implies(p.state == OPEN, p.attempts <= MAX_ATTEMPTS)
}

fn upload_time(clock: u64, p: PlaceRecord) -> bool
    ensures { result ≡ upload_time clock p }
{
    implies(p.state == OPEN, fit_time(clock, p.last))
}

fn upload_length(p: PlaceRecord) -> bool
    ensures { result ≡ upload_length p }
{
    implies(
        p.state == OPEN,
        p.taken <= p.length && at_most_segments(p.length, p.taken),
    )
}

fn upload_signers(p: PlaceRecord) -> bool
    ensures { result ≡ upload_signers p }
{
    implies(p.state == OPEN, p.signers == 0)
}

fn booked_length(p: PlaceRecord) -> bool
    ensures { result ≡ booked_length p }
{
    implies(p.state == BOOKED, within(1, FILE_BYTES as u64, p.length))
}

fn booked_rest(p: PlaceRecord) -> bool
    ensures { result ≡ booked_rest p }
{
    implies(
        p.state == BOOKED,
        p.segments == 0 && p.taken == 0 && p.attempts == 0 && p.last == 0,
    )
}

pub fn place_holds(clock: u64, openings: u64, p: PlaceRecord) -> bool
    ensures { result ≡ place_holds clock openings p }
{
    place_state(p)
        && place_free(p)
        && place_subscriber(p)
        && place_number(openings, p)
        && place_order(p)
        && upload_segments(p)
        && upload_taken(p)
        && upload_attempts(p)
        && upload_time(clock, p)
        && upload_length(p)
        && upload_signers(p)
        && booked_length(p)
        && booked_rest(p)
}

fn event_number(events: u64, i: u64, e: EventRecord) -> bool
    requires { i < up_to record_count events }
    ensures { result ≡ event_number events i e }
{
    let used = up_to(64, events);
    e.number == events - used + 1 + i
}

fn event_clock(clock: u64, before: EventRecord, e: EventRecord) -> bool
    ensures { result ≡ event_clock clock before e }
{
    e.clock <= clock && before.clock <= e.clock
}

fn event_subscriber(e: EventRecord) -> bool
    ensures { result ≡ event_subscriber e }
{
    within(1, SUBSCRIBERS, e.subscriber)
}

fn event_type(e: EventRecord) -> bool
    ensures { result ≡ event_type e }
{
    e.order_type == FUL
}

fn event_order(e: EventRecord) -> bool
    ensures { result ≡ event_order e }
{
    e.order < SERIES_LIMIT
}

fn event_running(openings: u64, e: EventRecord) -> bool
    ensures { result ≡ event_running openings e }
{
    e.low < openings
}

fn event_kind(e: EventRecord) -> bool
    ensures { result ≡ event_kind e }
{
    within(1, LAST_KIND, e.kind)
}

// A used event and the one before it.
pub fn event_holds(
    clock: u64,
    openings: u64,
    events: u64,
    i: u64,
    before: EventRecord,
    e: EventRecord,
) -> bool
    requires { i < up_to record_count events }
    ensures { result ≡ event_holds clock openings events i before e }
{
    event_number(events, i, e)
        && event_clock(clock, before, e)
        && event_subscriber(e)
        && event_type(e)
        && event_order(e)
        && event_running(openings, e)
        && event_kind(e)
}
