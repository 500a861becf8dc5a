// Where the numbers of a session stand, in the order of the image, and its records.
ghost use Rattle.std.specs.Prelude.{◌≡◌, ◌<◌, length};
ghost use Rattle.bank_state.specs.Limits.{place_count, nonce_count};
ghost use Rattle.journal.specs.Events.{record_count};
ghost use Rattle.image_records.specs.Layout.{number_count, nonces, downloads, used_events, nonce_at, download_at};
ghost use Rattle.image_records.specs.Layout.{place_at, event_at, counter_at, counter_of, file_at, file_of, slot_count};
ghost use Rattle.image_records.specs.Layout.{slot_at, count_size, count_at};

use crate::tests::up_to;
use bank_state::limits::{NONCE_COUNT, PLACE_COUNT};
use journal::event::RECORD_COUNT;
use message::limits::SUBSCRIBERS;

pub const SLOT_COUNT: usize = PLACE_COUNT + PLACE_COUNT;

pub const CLOCK: usize = 0;

pub const OPENINGS: usize = CLOCK + 1;

pub const SERIES: usize = OPENINGS + 1;

pub const EVENTS: usize = SERIES + PLACE_COUNT;

pub const NONCE_COUNT_AT: usize = EVENTS + 1;

pub const NONCES: usize = NONCE_COUNT_AT + 1;

pub const NONCE_WIDTH: usize = 3;

pub const DOWNLOAD_COUNT_AT: usize = NONCES + NONCE_WIDTH * NONCE_COUNT;

pub const DOWNLOADS: usize = DOWNLOAD_COUNT_AT + 1;

pub const DOWNLOAD_WIDTH: usize = 6;

pub const PLACES: usize = DOWNLOADS + DOWNLOAD_WIDTH * PLACE_COUNT;

pub const PLACE_WIDTH: usize = 11;

pub const FILES: usize = PLACES + PLACE_WIDTH * PLACE_COUNT;

pub const JOURNAL: usize = FILES + PLACE_COUNT;

pub const EVENT_WIDTH: usize = 8;

pub const COUNTS: usize = JOURNAL + EVENT_WIDTH * RECORD_COUNT;

pub const COUNT_SIZE: usize = 7;

pub const NUMBER_COUNT: usize = COUNTS + COUNT_SIZE;

// A nonce's halves and the timestamp of its opening.
#[derive(Clone, Copy)]
pub struct NonceRecord {
    pub high: u64,
    pub low: u64,
    pub timestamp: u64,
}

// An open download; low is the running number of its opening.
#[derive(Clone, Copy)]
pub struct DownloadRecord {
    pub subscriber: u64,
    pub high: u64,
    pub low: u64,
    pub delivered: u64,
    pub attempts: u64,
    pub last: u64,
}

// A place: free (0), an open upload (1) or a booked order (2); low is the running number of its opening, order its order
// number as a number, signers is a set as bits.
#[derive(Clone, Copy, PartialEq, Eq, Default)]
pub struct PlaceRecord {
    pub state: u64,
    pub subscriber: u64,
    pub high: u64,
    pub low: u64,
    pub order: u64,
    pub segments: u64,
    pub taken: u64,
    pub attempts: u64,
    pub last: u64,
    pub length: u64,
    pub signers: u64,
}

// An event of the journal; low is the running number of its order's opening.
#[derive(Clone, Copy)]
pub struct EventRecord {
    pub number: u64,
    pub clock: u64,
    pub subscriber: u64,
    pub order_type: u64,
    pub order: u64,
    pub high: u64,
    pub low: u64,
    pub kind: u64,
}

// A place or an open download: free, open or booked, its subscriber and its running number.
#[derive(Clone, Copy)]
pub struct Slot {
    pub state: u64,
    pub subscriber: u64,
    pub low: u64,
}

// How many nonces are in use, at most those that there are.
pub fn nonces(numbers: &[u64]) -> usize
    requires { length numbers.now ≡ number_count }
    ensures { result ≡ nonces numbers.now }
{
    up_to(64, numbers[NONCE_COUNT_AT]) as usize
}

pub fn downloads(numbers: &[u64]) -> usize
    requires { length numbers.now ≡ number_count }
    ensures { result ≡ downloads numbers.now }
{
    up_to(8, numbers[DOWNLOAD_COUNT_AT]) as usize
}

pub fn used_events(numbers: &[u64]) -> usize
    requires { length numbers.now ≡ number_count }
    ensures { result ≡ used_events numbers.now }
{
    up_to(64, numbers[EVENTS]) as usize
}

#[tactic(auto, unfolding(crate::specs::Layout::nonce_at))]
pub fn nonce_at(numbers: &[u64], i: usize) -> NonceRecord
    requires { (i < nonce_count) × (length numbers.now ≡ number_count) }
    ensures { result ≡ nonce_at numbers.now i }
{
    let at = NONCES + i * NONCE_WIDTH;
    NonceRecord {
        high: numbers[at],
        low: numbers[at + 1],
        timestamp: numbers[at + 2],
    }
}

#[tactic(auto, unfolding(crate::specs::Layout::download_at))]
pub fn download_at(numbers: &[u64], i: usize) -> DownloadRecord
    requires { (i < place_count) × (length numbers.now ≡ number_count) }
    ensures { result ≡ download_at numbers.now i }
{
    let at = DOWNLOADS + i * DOWNLOAD_WIDTH;
    DownloadRecord {
        subscriber: numbers[at],
        high: numbers[at + 1],
        low: numbers[at + 2],
        delivered: numbers[at + 3],
        attempts: numbers[at + 4],
        last: numbers[at + 5],
    }
}

#[tactic(auto, unfolding(crate::specs::Layout::place_at))]
pub fn place_at(numbers: &[u64], i: usize) -> PlaceRecord
    requires { (i < place_count) × (length numbers.now ≡ number_count) }
    ensures { result ≡ place_at numbers.now i }
{
    let at = PLACES + i * PLACE_WIDTH;
    PlaceRecord {
        state: numbers[at],
        subscriber: numbers[at + 1],
        high: numbers[at + 2],
        low: numbers[at + 3],
        order: numbers[at + 4],
        segments: numbers[at + 5],
        taken: numbers[at + 6],
        attempts: numbers[at + 7],
        last: numbers[at + 8],
        length: numbers[at + 9],
        signers: numbers[at + 10],
    }
}

#[tactic(auto, unfolding(crate::specs::Layout::event_at))]
pub fn event_at(numbers: &[u64], i: usize) -> EventRecord
    requires { (i < record_count) × (length numbers.now ≡ number_count) }
    ensures { result ≡ event_at numbers.now i }
{
    let at = JOURNAL + i * EVENT_WIDTH;
    EventRecord {
        number: numbers[at],
        clock: numbers[at + 1],
        subscriber: numbers[at + 2],
        order_type: numbers[at + 3],
        order: numbers[at + 4],
        high: numbers[at + 5],
        low: numbers[at + 6],
        kind: numbers[at + 7],
    }
}

// The counter of series i, from 0 on.
#[tactic(auto, unfolding(crate::specs::Layout::counter_at))]
pub fn counter_at(numbers: &[u64], i: usize) -> u64
    requires { (i < place_count) × (length numbers.now ≡ number_count) }
    ensures { result ≡ counter_at numbers.now i }
{
    numbers[SERIES + i]
}

// The counter of a subscriber's series; 0 where there is no such subscriber.
#[tactic(auto, unfolding(crate::specs::Layout::counter_of))]
pub fn counter_of(numbers: &[u64], subscriber: u64) -> u64
    requires { length numbers.now ≡ number_count }
    ensures { result ≡ counter_of numbers.now subscriber }
{
    if (1..=SUBSCRIBERS).contains(&subscriber) {
        counter_at(numbers, (subscriber - 1) as usize)
    } else {
        0
    }
}

// The length of the file in mailbox i, from 0 on.
#[tactic(auto, unfolding(crate::specs::Layout::file_at))]
pub fn file_at(numbers: &[u64], i: usize) -> u64
    requires { (i < place_count) × (length numbers.now ≡ number_count) }
    ensures { result ≡ file_at numbers.now i }
{
    numbers[FILES + i]
}

// The file length of a subscriber's mailbox; 0 where there is no such subscriber.
#[tactic(auto, unfolding(crate::specs::Layout::file_of))]
pub fn file_of(numbers: &[u64], subscriber: u64) -> u64
    requires { length numbers.now ≡ number_count }
    ensures { result ≡ file_of numbers.now subscriber }
{
    if (1..=SUBSCRIBERS).contains(&subscriber) {
        file_at(numbers, (subscriber - 1) as usize)
    } else {
        0
    }
}

// Count i, from 0 on.
#[tactic(auto, unfolding(crate::specs::Layout::count_at))]
pub fn count_at(numbers: &[u64], i: usize) -> u64
    requires { (i < count_size) × (length numbers.now ≡ number_count) }
    ensures { result ≡ count_at numbers.now i }
{
    numbers[COUNTS + i]
}

// Place i, or open download i - 8.
#[tactic(auto, unfolding(crate::specs::Layout::slot_at))]
pub fn slot_at(numbers: &[u64], i: usize) -> Slot
    requires { (i < slot_count) × (length numbers.now ≡ number_count) }
    ensures { result ≡ slot_at numbers.now i }
{
    if i < PLACE_COUNT {
        let p = place_at(numbers, i);
        return Slot {
            state: p.state,
            subscriber: p.subscriber,
            low: p.low,
        };
    }
    let d = download_at(numbers, i - PLACE_COUNT);
    Slot {
        state: u64::from(i - PLACE_COUNT < downloads(numbers)),
        subscriber: d.subscriber,
        low: d.low,
    }
}
