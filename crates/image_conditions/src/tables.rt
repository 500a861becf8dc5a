// The conditions of all records of a kind, of places and open downloads together, and of the bytes behind a length.
ghost use Rattle.std.specs.Prelude.{◌≡◌, ℕ, Bool, not, ◌+◌, ◌-◌, ◌*◌, ◌≤◌, ◌<◌, length, slice_index, SomeIff};
ghost use Rattle.message.specs.Limits.{subscribers, file_bytes};
ghost use Rattle.bank_state.specs.Limits.{place_count, nonce_count, store_bytes};
ghost use Rattle.image_records.specs.Shapes.{count, total, distinct, all_zero, unused};
ghost use Rattle.image_records.specs.Layout.{number_count, nonces, downloads, used_events, slot_count};
ghost use Rattle.image_conditions.specs.Conditions.{series_fits, every_series, is_ahead, chosen_ahead, series_sum};
ghost use Rattle.image_conditions.specs.Conditions.{same_nonce, nonces_distinct, nonces_unused, every_nonce};
ghost use Rattle.image_conditions.specs.Conditions.{download_test, download_rises, downloads_unused, every_download};
ghost use Rattle.image_conditions.specs.Conditions.{place_test, place_bytes, every_place};
ghost use Rattle.image_conditions.specs.Conditions.{same_order, orders_distinct};
ghost use Rattle.image_conditions.specs.Conditions.{same_number, numbers_distinct, is_open_slot, is_open_of, open_in_all};
ghost use Rattle.image_conditions.specs.Conditions.{open_of_one, every_subscriber, bytes_behind};
ghost use Rattle.image_conditions.specs.Conditions.{signers_at, signers_in_all, events_fit};
ghost use Rattle.image_conditions.specs.Conditions.{mailbox_bytes, mailbox_test, every_mailbox};
ghost use Rattle.image_conditions.specs.Conditions.{event_test, every_event};
ghost use Rattle.image_conditions.specs.Conditions.{journal_unused, nonce_test};
ghost use Rattle.image_conditions.specs.Conditions.{counts_open, is_booked_place, counts_booked, counts_sum};

use bank_state::limits::{NONCE_COUNT, PLACE_COUNT, SERIES_LIMIT};
use image_records::layout::{
    CLOCK, COUNTS, DOWNLOAD_WIDTH, DOWNLOADS, EVENT_WIDTH, EVENTS, JOURNAL, NONCE_WIDTH, NONCES,
    NUMBER_COUNT, OPENINGS, SERIES, SLOT_COUNT, count_at, counter_at, counter_of, download_at,
    downloads, event_at, file_at, file_of, nonce_at, nonces, place_at, slot_at, used_events,
};
use image_records::records::{download_holds, event_holds, nonce_time, place_holds};
use image_records::tests::{at_most_twice_and, up_to, zero_bytes, zero_numbers};
use journal::event::RECORD_COUNT;
use message::limits::FILE_BYTES;
use signers::set;

// Whether the numbers of records from one on, up to the end of their field, are 0.
#[tactic(auto, unfolding(image_records::specs::Shapes::unused))]
fn unused(numbers: &[u64], at: usize, width: usize, used: usize, all: usize) -> bool
    requires { (used * width ≤ width * all) × (at + width * all ≤ length numbers.now)
        × (length numbers.now ≡ number_count) }
    ensures { result ≡ unused numbers.now at width used all }
{
    let from = at + used * width;
    let end = at + width * all;
    zero_numbers(&numbers[from..end])
}

// Whether no two of some records are the same, where a test says of two, the later one first, whether they differ.
fn distinct<F: Fn(usize, usize) -> bool>(n: usize, differ: F) -> bool
    requires { (i j : ℕ) → i < n → j < i → F.pre differ i j }
    ensures { (same : ℕ → ℕ → Bool)
        → ((i j : ℕ) (r : Bool) → i < n → j < i → F.post differ i j r → r ≡ not (same i j))
        → result ≡ distinct same n }
{
    for i in 0..n {
        for j in 0..i {
            if !differ(i, j) {
                return false;
            }
        }
    }
    true
}

// ---- series

#[tactic(auto, unfolding(crate::specs::Conditions::series_fits))]
fn series_fits(numbers: &[u64], i: usize) -> bool
    requires { (i < place_count) × (length numbers.now ≡ number_count) }
    ensures { result ≡ series_fits numbers.now i }
{
    counter_at(numbers, i) <= SERIES_LIMIT
}

pub fn every_series(numbers: &[u64]) -> bool
    requires { length numbers.now ≡ number_count }
    ensures { result ≡ every_series numbers.now }
{
    (0..PLACE_COUNT).all(|i| series_fits(numbers, i))
}

// Whether a place is in use with an order number that its subscriber's counter has not reached.
#[tactic(auto, unfolding(crate::specs::Conditions::is_ahead))]
fn is_ahead(numbers: &[u64], i: usize) -> bool
    requires { (i < place_count) × (length numbers.now ≡ number_count) }
    ensures { result ≡ is_ahead numbers.now i }
{
    let p = place_at(numbers, i);
    0 < p.state && counter_of(numbers, p.subscriber) <= p.order
}

// How many places are so.
fn chosen_ahead(numbers: &[u64]) -> u64
    requires { length numbers.now ≡ number_count }
    ensures { result ≡ chosen_ahead numbers.now }
{
    (0..PLACE_COUNT).filter(|i| is_ahead(numbers, *i)).count() as u64
}

// What some numbers leave of a whole; none where their sum is above it. Each is taken from what the ones before leave,
// so that no sum is too large.
fn left_of(whole: u64, numbers: &[u64]) -> Option<u64>
    ensures { SomeIff result (total (slice_index numbers.now) (length numbers.now) ≤ whole)
        (whole - total (slice_index numbers.now) (length numbers.now)) }
{
    let mut left = whole;
    for n in numbers {
        left = left.checked_sub(*n)?;
    }
    Some(left)
}

// Whether the counters and the numbers chosen ahead of them add up to at most the openings.
pub fn series_sum(numbers: &[u64]) -> bool
    requires { length numbers.now ≡ number_count }
    ensures { result ≡ series_sum numbers.now }
{
    match left_of(numbers[OPENINGS], &numbers[SERIES..EVENTS]) {
        Some(left) => chosen_ahead(numbers) <= left,
        None => false,
    }
}

// ---- nonces

#[tactic(auto, unfolding(crate::specs::Conditions::nonce_test))]
fn nonce_test(numbers: &[u64], i: usize) -> bool
    requires { (i < nonce_count) × (length numbers.now ≡ number_count) }
    ensures { result ≡ nonce_test numbers.now i }
{
    nonce_time(numbers[CLOCK], nonce_at(numbers, i))
}

pub fn every_nonce(numbers: &[u64]) -> bool
    requires { length numbers.now ≡ number_count }
    ensures { result ≡ every_nonce numbers.now }
{
    let n = nonces(numbers);
    (0..n).all(|i| nonce_test(numbers, i))
}

// Whether two records have different nonces.
#[tactic(auto, unfolding(crate::specs::Conditions::same_nonce))]
fn other_nonce(numbers: &[u64], i: usize, j: usize) -> bool
    requires { (i < nonce_count) × (j < nonce_count) × (length numbers.now ≡ number_count) }
    ensures { result ≡ not (same_nonce numbers.now i j) }
{
    let a = nonce_at(numbers, i);
    let b = nonce_at(numbers, j);
    !(a.high == b.high && a.low == b.low)
}

pub fn nonces_distinct(numbers: &[u64]) -> bool
    requires { length numbers.now ≡ number_count }
    ensures { result ≡ nonces_distinct numbers.now }
{
    distinct(nonces(numbers), |i, j| other_nonce(numbers, i, j))
}

#[tactic(auto, unfolding(crate::specs::Conditions::nonces_unused))]
pub fn nonces_unused(numbers: &[u64]) -> bool
    requires { length numbers.now ≡ number_count }
    ensures { result ≡ nonces_unused numbers.now }
{
    unused(numbers, NONCES, NONCE_WIDTH, nonces(numbers), NONCE_COUNT)
}

// ---- open downloads

#[tactic(auto, unfolding(crate::specs::Conditions::download_rises))]
fn download_rises(numbers: &[u64], i: usize) -> bool
    requires { (i < place_count) × (length numbers.now ≡ number_count) }
    ensures { result ≡ download_rises numbers.now i }
{
    i == 0 || download_at(numbers, i - 1).low < download_at(numbers, i).low
}

#[tactic(auto, unfolding(crate::specs::Conditions::download_test))]
fn download_test(numbers: &[u64], i: usize) -> bool
    requires { (i < place_count) × (length numbers.now ≡ number_count) }
    ensures { result ≡ download_test numbers.now i }
{
    let d = download_at(numbers, i);
    let file = file_of(numbers, d.subscriber);
    download_holds(numbers[CLOCK], numbers[OPENINGS], file, d) && download_rises(numbers, i)
}

pub fn every_download(numbers: &[u64]) -> bool
    requires { length numbers.now ≡ number_count }
    ensures { result ≡ every_download numbers.now }
{
    let n = downloads(numbers);
    (0..n).all(|i| download_test(numbers, i))
}

#[tactic(auto, unfolding(crate::specs::Conditions::downloads_unused))]
pub fn downloads_unused(numbers: &[u64]) -> bool
    requires { length numbers.now ≡ number_count }
    ensures { result ≡ downloads_unused numbers.now }
{
    unused(
        numbers,
        DOWNLOADS,
        DOWNLOAD_WIDTH,
        downloads(numbers),
        PLACE_COUNT,
    )
}

// ---- places and mailboxes

// Whether the bytes of part i of a store behind this length are 0.
fn zero_behind(store: &[u8], i: usize, n: u64) -> bool
    requires { (i < place_count) × (length store.now ≡ store_bytes) }
    ensures { result ≡ all_zero (bytes_behind file_bytes store.now i n) }
{
    let from = i * FILE_BYTES + up_to(FILE_BYTES as u64, n) as usize;
    let end = i * FILE_BYTES + FILE_BYTES;
    zero_bytes(&store[from..end])
}

#[tactic(auto, unfolding(crate::specs::Conditions::place_bytes))]
fn place_bytes(numbers: &[u64], orders: &[u8], i: usize) -> bool
    requires { (i < place_count) × (length numbers.now ≡ number_count) × (length orders.now ≡ store_bytes) }
    ensures { result ≡ place_bytes numbers.now orders.now i }
{
    zero_behind(orders, i, place_at(numbers, i).length)
}

#[tactic(auto, unfolding(crate::specs::Conditions::place_test))]
fn place_test(numbers: &[u64], orders: &[u8], i: usize) -> bool
    requires { (i < place_count) × (length numbers.now ≡ number_count) × (length orders.now ≡ store_bytes) }
    ensures { result ≡ place_test numbers.now orders.now i }
{
    let p = place_at(numbers, i);
    place_holds(numbers[CLOCK], numbers[OPENINGS], p) && place_bytes(numbers, orders, i)
}

pub fn every_place(numbers: &[u64], orders: &[u8]) -> bool
    requires { (length numbers.now ≡ number_count) × (length orders.now ≡ store_bytes) }
    ensures { result ≡ every_place numbers.now orders.now }
{
    (0..PLACE_COUNT).all(|i| place_test(numbers, orders, i))
}

// Whether two places are not both in use with the same subscriber and order number.
#[tactic(auto, unfolding(crate::specs::Conditions::same_order))]
fn other_order(numbers: &[u64], i: usize, j: usize) -> bool
    requires { (i < place_count) × (j < place_count) × (length numbers.now ≡ number_count) }
    ensures { result ≡ not (same_order numbers.now i j) }
{
    let a = place_at(numbers, i);
    let b = place_at(numbers, j);
    !(0 < a.state && 0 < b.state && a.subscriber == b.subscriber && a.order == b.order)
}

pub fn orders_distinct(numbers: &[u64]) -> bool
    requires { length numbers.now ≡ number_count }
    ensures { result ≡ orders_distinct numbers.now }
{
    distinct(PLACE_COUNT, |i, j| other_order(numbers, i, j))
}

#[tactic(auto, unfolding(crate::specs::Conditions::mailbox_bytes))]
fn mailbox_bytes(numbers: &[u64], mailboxes: &[u8], i: usize) -> bool
    requires { (i < place_count) × (length numbers.now ≡ number_count) × (length mailboxes.now ≡ store_bytes) }
    ensures { result ≡ mailbox_bytes numbers.now mailboxes.now i }
{
    zero_behind(mailboxes, i, file_at(numbers, i))
}

#[tactic(auto, unfolding(crate::specs::Conditions::mailbox_test))]
fn mailbox_test(numbers: &[u64], mailboxes: &[u8], i: usize) -> bool
    requires { (i < place_count) × (length numbers.now ≡ number_count) × (length mailboxes.now ≡ store_bytes) }
    ensures { result ≡ mailbox_test numbers.now mailboxes.now i }
{
    file_at(numbers, i) <= FILE_BYTES as u64 && mailbox_bytes(numbers, mailboxes, i)
}

pub fn every_mailbox(numbers: &[u64], mailboxes: &[u8]) -> bool
    requires { (length numbers.now ≡ number_count) × (length mailboxes.now ≡ store_bytes) }
    ensures { result ≡ every_mailbox numbers.now mailboxes.now }
{
    (0..PLACE_COUNT).all(|i| mailbox_test(numbers, mailboxes, i))
}

// ---- places and open downloads together

// Whether two slots are not both in use with the same running number.
#[tactic(auto, unfolding(crate::specs::Conditions::same_number))]
fn other_number(numbers: &[u64], i: usize, j: usize) -> bool
    requires { (i < slot_count) × (j < slot_count) × (length numbers.now ≡ number_count) }
    ensures { result ≡ not (same_number numbers.now i j) }
{
    let a = slot_at(numbers, i);
    let b = slot_at(numbers, j);
    !(0 < a.state && 0 < b.state && a.low == b.low)
}

pub fn numbers_distinct(numbers: &[u64]) -> bool
    requires { length numbers.now ≡ number_count }
    ensures { result ≡ numbers_distinct numbers.now }
{
    distinct(SLOT_COUNT, |i, j| other_number(numbers, i, j))
}

#[tactic(auto, unfolding(crate::specs::Conditions::is_open_slot))]
fn is_open_slot(numbers: &[u64], i: usize) -> bool
    requires { (i < slot_count) × (length numbers.now ≡ number_count) }
    ensures { result ≡ is_open_slot numbers.now i }
{
    slot_at(numbers, i).state == 1
}

// How many of the first n slots are open.
fn open_slots(numbers: &[u64], n: usize) -> u64
    requires { (n ≤ slot_count) × (length numbers.now ≡ number_count) }
    ensures { (result ≡ count (is_open_slot numbers.now) n) × (result ≤ n) }
{
    (0..n).filter(|i| is_open_slot(numbers, *i)).count() as u64
}

#[tactic(auto, unfolding(crate::specs::Conditions::open_in_all))]
pub fn open_in_all(numbers: &[u64]) -> bool
    requires { length numbers.now ≡ number_count }
    ensures { result ≡ open_in_all numbers.now }
{
    open_slots(numbers, SLOT_COUNT) <= 8
}

#[tactic(auto, unfolding(crate::specs::Conditions::is_open_of))]
fn is_open_of(numbers: &[u64], s: u64, i: usize) -> bool
    requires { (i < slot_count) × (length numbers.now ≡ number_count) }
    ensures { result ≡ is_open_of numbers.now s i }
{
    let a = slot_at(numbers, i);
    a.state == 1 && a.subscriber == s
}

// How many slots are open transactions of a subscriber.
fn open_of(numbers: &[u64], s: u64) -> u64
    requires { length numbers.now ≡ number_count }
    ensures { result ≡ count (is_open_of numbers.now s) slot_count }
{
    (0..SLOT_COUNT)
        .filter(|i| is_open_of(numbers, s, *i))
        .count() as u64
}

#[tactic(auto, unfolding(crate::specs::Conditions::open_of_one))]
fn open_of_one(numbers: &[u64], i: usize) -> bool
    requires { (i < subscribers) × (length numbers.now ≡ number_count) }
    ensures { result ≡ open_of_one numbers.now i }
{
    open_of(numbers, (i + 1) as u64) <= 4
}

pub fn every_subscriber(numbers: &[u64]) -> bool
    requires { length numbers.now ≡ number_count }
    ensures { result ≡ every_subscriber numbers.now }
{
    (0..PLACE_COUNT).all(|i| open_of_one(numbers, i))
}

// How many signers a place has: its set is the low byte.
fn signers_at(numbers: &[u64], i: usize) -> u64
    requires { (i < place_count) × (length numbers.now ≡ number_count) }
    ensures { (result ≡ signers_at numbers.now i) × (result ≤ 8) }
{
    u64::from(set::count((place_at(numbers, i).signers % 256) as u8))
}

// How many signers the places have, all together.
fn signers_in_all(numbers: &[u64]) -> u64
    requires { length numbers.now ≡ number_count }
    ensures { result ≡ signers_in_all numbers.now }
{
    let mut sum = 0;
    for i in 0..PLACE_COUNT {
        sum += signers_at(numbers, i);
    }
    sum
}

#[tactic(auto, unfolding(crate::specs::Conditions::events_fit))]
pub fn events_fit(numbers: &[u64]) -> bool
    requires { length numbers.now ≡ number_count }
    ensures { result ≡ events_fit numbers.now }
{
    let open = open_slots(numbers, PLACE_COUNT);
    let signers = signers_in_all(numbers);
    at_most_twice_and(numbers[EVENTS], open, numbers[OPENINGS], signers)
}

// ---- the journal

#[tactic(auto, unfolding(crate::specs::Conditions::event_test))]
fn event_test(numbers: &[u64], i: usize) -> bool
    requires { (i < used_events numbers.now) × (length numbers.now ≡ number_count) }
    ensures { result ≡ event_test numbers.now i }
{
    let e = event_at(numbers, i);
    let before = event_at(numbers, i.saturating_sub(1));
    event_holds(
        numbers[CLOCK],
        numbers[OPENINGS],
        numbers[EVENTS],
        i as u64,
        before,
        e,
    )
}

pub fn every_event(numbers: &[u64]) -> bool
    requires { length numbers.now ≡ number_count }
    ensures { result ≡ every_event numbers.now }
{
    let n = used_events(numbers);
    (0..n).all(|i| event_test(numbers, i))
}

#[tactic(auto, unfolding(crate::specs::Conditions::journal_unused))]
pub fn journal_unused(numbers: &[u64]) -> bool
    requires { length numbers.now ≡ number_count }
    ensures { result ≡ journal_unused numbers.now }
{
    unused(
        numbers,
        JOURNAL,
        EVENT_WIDTH,
        used_events(numbers),
        RECORD_COUNT,
    )
}

// ---- the counts

#[tactic(auto, unfolding(crate::specs::Conditions::counts_open))]
pub fn counts_open(numbers: &[u64]) -> bool
    requires { length numbers.now ≡ number_count }
    ensures { result ≡ counts_open numbers.now }
{
    count_at(numbers, 0) == open_slots(numbers, SLOT_COUNT)
}

#[tactic(auto, unfolding(crate::specs::Conditions::is_booked_place))]
fn is_booked_place(numbers: &[u64], i: usize) -> bool
    requires { (i < place_count) × (length numbers.now ≡ number_count) }
    ensures { result ≡ is_booked_place numbers.now i }
{
    place_at(numbers, i).state == 2
}

// How many places are booked orders.
fn booked_places(numbers: &[u64]) -> u64
    requires { length numbers.now ≡ number_count }
    ensures { result ≡ count (is_booked_place numbers.now) place_count }
{
    (0..PLACE_COUNT)
        .filter(|i| is_booked_place(numbers, *i))
        .count() as u64
}

#[tactic(auto, unfolding(crate::specs::Conditions::counts_booked))]
pub fn counts_booked(numbers: &[u64]) -> bool
    requires { length numbers.now ≡ number_count }
    ensures { result ≡ counts_booked numbers.now }
{
    count_at(numbers, 1) == booked_places(numbers)
}

// Whether the counts add up to the openings.
pub fn counts_sum(numbers: &[u64]) -> bool
    requires { length numbers.now ≡ number_count }
    ensures { result ≡ counts_sum numbers.now }
{
    match left_of(numbers[OPENINGS], &numbers[COUNTS..NUMBER_COUNT]) {
        Some(left) => left == 0,
        None => false,
    }
}
