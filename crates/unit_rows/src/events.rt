// The journal's row as numbers: a record, the events of one call entered, and the whole row by value and back.
ghost use Rattle.std.specs.Prelude.{◌≡◌, ◌<◌, get_or, set};
ghost use Rattle.journal.specs.Events.{record_count, no_event};
ghost use Rattle.journal.specs.Row.{row_after};
ghost use Rattle.unit_rows.specs.Rows.{journal_from};

use image_numbers::events::{kind_of, put_event};
use journal::event::{Batch, Event, RECORD_COUNT};
use journal::places::{event_at, places_of};

// The numbers of a record, and of the row.
const EVENT_WIDTH: usize = 8;

pub const ROW_SIZE: usize = RECORD_COUNT * EVENT_WIDTH;

// Record i.
pub fn record_at(row: &[u64; ROW_SIZE], i: usize) -> Event
    requires { i < record_count }
    ensures { result ≡ get_or (journal_from row.now) i no_event }
{
    let at = EVENT_WIDTH * i;
    Event {
        number: row[at],
        clock: row[at + 1],
        subscriber: row[at + 2],
        order_type: row[at + 3],
        order: row[at + 4],
        high: row[at + 5],
        low: row[at + 6],
        kind: kind_of(row[at + 7]),
    }
}

// Sets record i.
fn set_record(row: &mut [u64; ROW_SIZE], i: usize, e: Event)
    requires { i < record_count }
    ensures { journal_from row.new ≡ set (journal_from row.old) i e }
{
    put_event(e, row, EVENT_WIDTH * i);
}

// The events of one call are entered after so many others, as `journal::row::enter` does on records. No generic form of
// both: a trait of rows with its laws is longer than these two loops.
pub fn enter(row: &mut [u64; ROW_SIZE], events: u64, clock: u64, batch: Batch)
    ensures { journal_from row.new ≡ row_after events clock batch (journal_from row.old) }
{
    let places = places_of(RECORD_COUNT, events, batch.count);
    for i in places.first..places.start {
        let e = record_at(row, i + places.by);
        set_record(row, i, e);
    }
    for i in places.start..places.end {
        set_record(row, i, event_at(events, clock, batch, i - places.start));
    }
}

// The row by value.
pub fn journal_of(row: &[u64; ROW_SIZE]) -> [Event; RECORD_COUNT]
    ensures { result ≡ journal_from row.now }
{
    let mut held = [record_at(row, 0); RECORD_COUNT];
    // Indices, since each also names a record of the row's numbers.
    for i in 0..RECORD_COUNT {
        held[i] = record_at(row, i);
    }
    held
}

// The records of an array become the row's.
pub fn set_journal(row: &mut [u64; ROW_SIZE], held: [Event; RECORD_COUNT])
    ensures { journal_from row.new ≡ held }
{
    for i in 0..RECORD_COUNT {
        set_record(row, i, held[i]);
    }
}
