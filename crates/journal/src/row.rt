// The row of records: the events of one call are entered, an upload is looked up, and the whole row is held by value or
// replaced. It is a lent slice of 64 records, as document 02 has it.
ghost use Rattle.std.specs.Prelude.{◌≡◌, ◌+◌, ◌<◌, ◌≤◌, cond, ltb, length};
ghost use Rattle.std.specs.List.{copy_within};
ghost use Rattle.journal.specs.Row.{row_after, is_of, or_ended, with_kind, with_record, lookup};
ghost use Rattle.journal.specs.Row.{empty_row, held_row, replaced};

use crate::event::{Batch, Event, Found, Kind, RECORD_COUNT};
use crate::places::{Places, event_at, places_of};
use frame_table::fields::Bits128;

// Gives the places from `first` to before `start` the records `by` places further on; where there are none, these places
// may lie behind the row.
fn move_up(row: &mut [Event], places: Places)
    requires { places.first < places.start → places.start + places.by ≤ length row.old }
    ensures { row.new ≡ cond (ltb places.first places.start)
        (copy_within row.old (places.first + places.by) (places.start + places.by) places.first)
        row.old }
{
    if places.first < places.start {
        row.copy_within(
            places.first + places.by..places.start + places.by,
            places.first,
        );
    }
}

// The events of one call are entered after so many others, and numbered on from them. The records move up where there
// is no room left.
pub fn enter(row: &mut [Event], events: u64, clock: u64, batch: Batch)
    ensures { row.new ≡ row_after events clock batch row.old }
{
    let places = places_of(row.len(), events, batch.count);
    move_up(row, places);
    // An index, since it also numbers the event; and where none is entered the places may lie behind the row.
    for i in places.start..places.end {
        row[i] = event_at(events, clock, batch, i - places.start);
    }
}

// Whether a record has this transaction ID. One not in use has ID 0, which is a real one: its kind says nothing.
#[tactic(auto, unfolding(crate::specs::Row::is_of))]
fn is_of(transaction: Bits128, e: Event) -> bool
    ensures { result ≡ is_of transaction e }
{
    e.high == transaction.high && e.low == transaction.low
}

// What is known of an upload that a record says ended.
fn or_ended(found: Found) -> Found
    ensures { result ≡ or_ended found }
{
    match found {
        Found::Nothing | Found::Ended => Found::Ended,
        Found::Booked => Found::Booked,
    }
}

// What is known of an upload with one record of it more.
fn with_kind(kind: Kind, found: Found) -> Found
    ensures { result ≡ with_kind kind found }
{
    match kind {
        Kind::Unused | Kind::Opened | Kind::Signed => found,
        Kind::Booked => Found::Booked,
        Kind::Cancelled | Kind::Dropped => or_ended(found),
    }
}

// What is known of an upload with one record more, of any upload.
#[tactic(auto, unfolding(crate::specs::Row::with_record))]
fn with_record(transaction: Bits128, e: Event, found: Found) -> Found
    ensures { result ≡ with_record transaction e found }
{
    if is_of(transaction, e) {
        with_kind(e.kind, found)
    } else {
        found
    }
}

// What the row says of the upload with this transaction ID, from its last record to its first.
pub fn find(row: &[Event], transaction: Bits128) -> Found
    ensures { result ≡ lookup transaction row.now }
{
    row.iter().rev().fold(
        Found::Nothing,
        |found, e| with_record(transaction, *e, found),
    )
}

// A record that is not in use.
const NO_EVENT: Event = Event {
    number: 0,
    clock: 0,
    subscriber: 0,
    order_type: 0,
    order: 0,
    high: 0,
    low: 0,
    kind: Kind::Unused,
};

// The row by value, where it has RECORD_COUNT records; else a row with none in use.
#[tactic(auto, unfolding(crate::specs::Row::held_row, crate::specs::Row::empty_row))]
pub fn held_row(row: &[Event]) -> [Event; RECORD_COUNT]
    ensures { result ≡ held_row row.now }
{
    let mut held = [NO_EVENT; RECORD_COUNT];
    if row.len() == RECORD_COUNT {
        held.copy_from_slice(row);
    }
    held
}

// The records of an array become the row's, where they are taken and the row has RECORD_COUNT.
#[tactic(auto, unfolding(crate::specs::Row::replaced))]
pub fn replace_row(row: &mut [Event], held: [Event; RECORD_COUNT], taken: bool)
    ensures { row.new ≡ replaced taken held row.old }
{
    if taken && row.len() == RECORD_COUNT {
        row.copy_from_slice(&held);
    }
}
