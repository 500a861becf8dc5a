// The list: whether numbers and stores are a session that an image may hold.
ghost use Rattle.std.specs.Prelude.{◌≡◌, length};
ghost use Rattle.bank_state.specs.Limits.{store_bytes};
ghost use Rattle.image_records.specs.Layout.{number_count};
ghost use Rattle.image_conditions.specs.Conditions.{clock_fits, openings_fit, nonce_count_fits, download_count_fits};
ghost use Rattle.image_conditions.specs.Conditions.{series_conditions, nonce_conditions, download_conditions};
ghost use Rattle.image_conditions.specs.Conditions.{open_conditions, journal_conditions, count_conditions, conditions};
ghost use Rattle.image_conditions.specs.Conditions.{admitted};

use crate::tables::{
    counts_booked, counts_open, counts_sum, downloads_unused, events_fit, every_download,
    every_event, every_mailbox, every_nonce, every_place, every_series, every_subscriber,
    journal_unused, nonces_distinct, nonces_unused, numbers_distinct, open_in_all, orders_distinct,
    series_sum,
};
use bank_state::limits::{MAX_OPENINGS, STORE_BYTES};
use frame_table::table::LAST_TIME;
use image_records::layout::{CLOCK, DOWNLOAD_COUNT_AT, NONCE_COUNT_AT, NUMBER_COUNT, OPENINGS};

fn clock_fits(numbers: &[u64]) -> bool
    requires { length numbers.now ≡ number_count }
    ensures { result ≡ clock_fits numbers.now }
{
    numbers[CLOCK] <= LAST_TIME
}

fn openings_fit(numbers: &[u64]) -> bool
    requires { length numbers.now ≡ number_count }
    ensures { result ≡ openings_fit numbers.now }
{
    numbers[OPENINGS] <= MAX_OPENINGS
}

#[tactic(auto, unfolding(crate::specs::Conditions::series_conditions))]
fn series_conditions(numbers: &[u64]) -> bool
    requires { length numbers.now ≡ number_count }
    ensures { result ≡ series_conditions numbers.now }
{
    every_series(numbers) && series_sum(numbers)
}

fn nonce_count_fits(numbers: &[u64]) -> bool
    requires { length numbers.now ≡ number_count }
    ensures { result ≡ nonce_count_fits numbers.now }
{
    numbers[NONCE_COUNT_AT] <= 64
}

fn download_count_fits(numbers: &[u64]) -> bool
    requires { length numbers.now ≡ number_count }
    ensures { result ≡ download_count_fits numbers.now }
{
    numbers[DOWNLOAD_COUNT_AT] <= 8
}

#[tactic(auto, unfolding(crate::specs::Conditions::nonce_conditions))]
fn nonce_conditions(numbers: &[u64]) -> bool
    requires { length numbers.now ≡ number_count }
    ensures { result ≡ nonce_conditions numbers.now }
{
    nonce_count_fits(numbers)
        && every_nonce(numbers)
        && nonces_distinct(numbers)
        && nonces_unused(numbers)
}

#[tactic(auto, unfolding(crate::specs::Conditions::download_conditions))]
fn download_conditions(numbers: &[u64]) -> bool
    requires { length numbers.now ≡ number_count }
    ensures { result ≡ download_conditions numbers.now }
{
    download_count_fits(numbers) && every_download(numbers) && downloads_unused(numbers)
}

#[tactic(auto, unfolding(crate::specs::Conditions::open_conditions))]
fn open_conditions(numbers: &[u64]) -> bool
    requires { length numbers.now ≡ number_count }
    ensures { result ≡ open_conditions numbers.now }
{
    orders_distinct(numbers)
        && numbers_distinct(numbers)
        && open_in_all(numbers)
        && every_subscriber(numbers)
}

#[tactic(auto, unfolding(crate::specs::Conditions::journal_conditions))]
fn journal_conditions(numbers: &[u64]) -> bool
    requires { length numbers.now ≡ number_count }
    ensures { result ≡ journal_conditions numbers.now }
{
    events_fit(numbers) && every_event(numbers) && journal_unused(numbers)
}

#[tactic(auto, unfolding(crate::specs::Conditions::count_conditions))]
fn count_conditions(numbers: &[u64]) -> bool
    requires { length numbers.now ≡ number_count }
    ensures { result ≡ count_conditions numbers.now }
{
    counts_open(numbers) && counts_booked(numbers) && counts_sum(numbers)
}

#[tactic(auto, unfolding(crate::specs::Conditions::conditions))]
fn conditions(numbers: &[u64], orders: &[u8], mailboxes: &[u8]) -> bool
    requires { (length numbers.now ≡ number_count) × (length orders.now ≡ store_bytes)
        × (length mailboxes.now ≡ store_bytes) }
    ensures { result ≡ conditions numbers.now orders.now mailboxes.now }
{
    clock_fits(numbers)
        && openings_fit(numbers)
        && series_conditions(numbers)
        && nonce_conditions(numbers)
        && download_conditions(numbers)
        && every_place(numbers, orders)
        && open_conditions(numbers)
        && every_mailbox(numbers, mailboxes)
        && journal_conditions(numbers)
        && count_conditions(numbers)
}

// Whether the session is one of the list; no other lengths are.
#[tactic(auto, using(octets::proofs::Tests::tests), unfolding(crate::specs::Conditions::admitted))]
pub fn admitted(numbers: &[u64], orders: &[u8], mailboxes: &[u8]) -> bool
    ensures { result ≡ admitted numbers.now orders.now mailboxes.now }
{
    numbers.len() == NUMBER_COUNT
        && orders.len() == STORE_BYTES
        && mailboxes.len() == STORE_BYTES
        && conditions(numbers, orders, mailboxes)
}
