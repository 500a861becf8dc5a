// The order places: eight rows.
ghost use Rattle.std.specs.Prelude.{◌≡◌, ◌&&◌, ◌<◌, eqb, length};
ghost use Rattle.bank_state.specs.declared.state.Place.{Place};
ghost use Rattle.bank_state.specs.Limits.{place_count};
ghost use Rattle.bank_state.specs.Rows.{count_of};
ghost use Rattle.bank_state.specs.Search.{is_open, is_free, is_upload, free_place, find_upload};
ghost use Rattle.bank_state.specs.Search.{holds_number, find_number, is_number_held};
ghost use Rattle.bank_state.specs.State.{place_at, with_place};
ghost use Rattle.bank_rows.specs.Layout.{state_size};
ghost use Rattle.bank_rows.specs.Records.{bits, use_of, number_of_use};
ghost use Rattle.bank_rows.specs.State.{bank_of, stored, Laid};

use crate::layout::{
    PLACE_ATTEMPTS, PLACE_HIGH, PLACE_LAST, PLACE_LENGTH, PLACE_LOW, PLACE_NUMBER, PLACE_SEGMENTS,
    PLACE_SIGNERS, PLACE_SUBSCRIBER, PLACE_TAKEN, PLACE_USE, PLACE_WIDTH, PLACES_AT,
};
use crate::rows::put;
use bank_state::limits::PLACE_COUNT;
use bank_state::state::{Place, Use};
use frame_table::fields::Bits128;

// A place's use as its number.
const FREE: u64 = 0;

pub const OPEN: u64 = 1;

pub const BOOKED: u64 = 2;

fn use_of(number: u64) -> Use
    ensures { result ≡ use_of number }
{
    match number {
        FREE => Use::Free,
        OPEN => Use::Open,
        _ => Use::Booked,
    }
}

fn number_of_use(used: Use) -> u64
    ensures { result ≡ number_of_use used }
{
    match used {
        Use::Free => FREE,
        Use::Open => OPEN,
        Use::Booked => BOOKED,
    }
}

// Place i.
pub fn place_at(rows: &[u64], i: usize) -> Place
    requires { (length rows.now ≡ state_size) × (i < place_count) }
    ensures { result ≡ place_at (bank_of rows.now) i }
{
    let at = PLACES_AT + PLACE_WIDTH * i;
    let used = use_of(rows[at + PLACE_USE]);
    let transaction = Bits128 {
        high: rows[at + PLACE_HIGH],
        low: rows[at + PLACE_LOW],
    };
    Place {
        used,
        transaction,
        subscriber: rows[at + PLACE_SUBSCRIBER],
        number: rows[at + PLACE_NUMBER],
        segments: rows[at + PLACE_SEGMENTS],
        taken: rows[at + PLACE_TAKEN],
        attempts: rows[at + PLACE_ATTEMPTS],
        last: rows[at + PLACE_LAST],
        length: rows[at + PLACE_LENGTH],
        signers: rows[at + PLACE_SIGNERS],
    }
}

// Sets place i.
pub fn set_place(rows: &mut [u64], i: usize, p: Place)
    requires { Laid rows.old × (i < place_count) }
    ensures { rows.new ≡ stored (with_place i p (bank_of rows.old)) rows.old }
{
    let numbers = [
        number_of_use(p.used),
        p.transaction.high,
        p.transaction.low,
        p.subscriber,
        p.number,
        p.segments,
        p.taken,
        p.attempts,
        p.last,
        p.length,
        p.signers,
    ];
    put(rows, PLACES_AT + PLACE_WIDTH * i, &numbers);
}

// Whether place i holds the upload open for this subscriber under this transaction ID.
fn is_upload_at(rows: &[u64], i: usize, subscriber: u64, high: u64, low: u64) -> bool
    requires { Laid rows.now × (i < place_count) }
    ensures { result ≡ is_upload subscriber (bits high low) (place_at (bank_of rows.now) i) }
{
    let at = PLACES_AT + PLACE_WIDTH * i;
    rows[at + PLACE_LOW] == low
        && rows[at + PLACE_HIGH] == high
        && rows[at + PLACE_SUBSCRIBER] == subscriber
        && rows[at + PLACE_USE] == OPEN
}

// The place of an open upload; the number of places where there is none.
pub fn find_upload(rows: &[u64], subscriber: u64, high: u64, low: u64) -> usize
    requires { Laid rows.now }
    ensures { result ≡ find_upload subscriber (bits high low) (bank_of rows.now) }
{
    (0..PLACE_COUNT)
        .find(|i| is_upload_at(rows, *i, subscriber, high, low))
        .unwrap_or(PLACE_COUNT)
}

// Whether place i is free.
fn is_free_at(rows: &[u64], i: usize) -> bool
    requires { Laid rows.now × (i < place_count) }
    ensures { result ≡ is_free (place_at (bank_of rows.now) i).used }
{
    let at = PLACES_AT + PLACE_WIDTH * i;
    rows[at + PLACE_USE] == FREE
}

// The first free place; the number of places where there is none.
pub fn free_place(rows: &[u64]) -> usize
    requires { Laid rows.now }
    ensures { result ≡ free_place (bank_of rows.now) }
{
    (0..PLACE_COUNT)
        .find(|i| is_free_at(rows, *i))
        .unwrap_or(PLACE_COUNT)
}

// Whether place i holds this order number of this subscriber, open or booked.
fn holds_number_at(rows: &[u64], i: usize, subscriber: u64, number: u64) -> bool
    requires { Laid rows.now × (i < place_count) }
    ensures { result ≡ holds_number subscriber number (place_at (bank_of rows.now) i) }
{
    let at = PLACES_AT + PLACE_WIDTH * i;
    rows[at + PLACE_USE] != FREE
        && rows[at + PLACE_SUBSCRIBER] == subscriber
        && rows[at + PLACE_NUMBER] == number
}

// The place that holds this order number of this subscriber; the number of places where there is none.
fn find_number(rows: &[u64], subscriber: u64, number: u64) -> usize
    requires { Laid rows.now }
    ensures { result ≡ find_number subscriber number (bank_of rows.now) }
{
    (0..PLACE_COUNT)
        .find(|i| holds_number_at(rows, *i, subscriber, number))
        .unwrap_or(PLACE_COUNT)
}

// Whether a place in use of this subscriber holds this order number.
pub fn is_number_held(rows: &[u64], subscriber: u64, number: u64) -> bool
    requires { Laid rows.now }
    ensures { result ≡ is_number_held subscriber number (bank_of rows.now) }
{
    find_number(rows, subscriber, number) < PLACE_COUNT
}

// Whether place i holds an open upload.
pub fn is_open_at(rows: &[u64], i: usize) -> bool
    requires { Laid rows.now × (i < place_count) }
    ensures { result ≡ is_open (place_at (bank_of rows.now) i).used }
{
    let at = PLACES_AT + PLACE_WIDTH * i;
    rows[at + PLACE_USE] == OPEN
}

// The open uploads.
pub fn open_uploads(rows: &[u64]) -> usize
    requires { Laid rows.now }
    ensures { result ≡ count_of (λ (p : Place). is_open p.used) (bank_of rows.now).places }
{
    (0..PLACE_COUNT).filter(|i| is_open_at(rows, *i)).count()
}

// Whether place i holds an open upload of this subscriber.
fn is_open_of(rows: &[u64], i: usize, subscriber: u64) -> bool
    requires { Laid rows.now × (i < place_count) }
    ensures { result ≡ (is_open (place_at (bank_of rows.now) i).used
        && eqb (place_at (bank_of rows.now) i).subscriber subscriber) }
{
    let at = PLACES_AT + PLACE_WIDTH * i;
    rows[at + PLACE_USE] == OPEN && rows[at + PLACE_SUBSCRIBER] == subscriber
}

// The open uploads of a subscriber.
pub fn open_uploads_of(rows: &[u64], subscriber: u64) -> usize
    requires { Laid rows.now }
    ensures { result ≡ count_of (λ (p : Place). is_open p.used && eqb p.subscriber subscriber)
        (bank_of rows.now).places }
{
    (0..PLACE_COUNT)
        .filter(|i| is_open_of(rows, *i, subscriber))
        .count()
}
