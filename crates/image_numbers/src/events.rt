// The journal's records as numbers of the image, and back.
ghost use Rattle.std.specs.Prelude.{◌≡◌, ◌+◌, ◌*◌, ◌≤◌, ◌<◌, length, drop};
ghost use Rattle.octets.specs.Bytes.{overwrite};
ghost use Rattle.journal.specs.Events.{record_count};
ghost use Rattle.bank_rows.specs.Rows.{numbers_of};
ghost use Rattle.image_records.specs.Layout.{event_width, journal_at, number_count};
ghost use Rattle.image_numbers.specs.Numbers.{number_of_kind, kind_of, event_numbers, event_of, row_from};

use bank_rows::rows::put;
use image_records::layout::{EVENT_WIDTH, JOURNAL, event_at};
use journal::event::{Event, Kind, RECORD_COUNT};

fn number_of_kind(kind: Kind) -> u64
    ensures { result ≡ number_of_kind kind }
{
    match kind {
        Kind::Unused => 0,
        Kind::Opened => 1,
        Kind::Booked => 2,
        Kind::Cancelled => 3,
        Kind::Dropped => 4,
        Kind::Signed => 5,
    }
}

pub fn kind_of(n: u64) -> Kind
    ensures { result ≡ kind_of n }
{
    match n {
        0 => Kind::Unused,
        1 => Kind::Opened,
        2 => Kind::Booked,
        3 => Kind::Cancelled,
        4 => Kind::Dropped,
        _ => Kind::Signed,
    }
}

// Writes an event's parts from a place on.
pub fn put_event(e: Event, numbers: &mut [u64], at: usize)
    requires { at + event_width ≤ length numbers.old }
    ensures { numbers.new ≡ overwrite numbers.old at (event_numbers e) }
{
    let parts = [
        e.number,
        e.clock,
        e.subscriber,
        e.order_type,
        e.order,
        e.high,
        e.low,
        number_of_kind(e.kind),
    ];
    put(numbers, at, &parts);
}

// Writes the journal's records behind the other numbers.
pub fn put_events(row: [Event; RECORD_COUNT], numbers: &mut [u64])
    requires { length numbers.old ≡ number_count }
    ensures { numbers.new
        ≡ overwrite numbers.old journal_at (numbers_of event_numbers row) }
{
    for i in 0..RECORD_COUNT {
        put_event(row[i], numbers, JOURNAL + i * EVENT_WIDTH);
    }
}

// The event of record i.
fn event_from(numbers: &[u64], i: usize) -> Event
    requires { (i < record_count) × (length numbers.now ≡ number_count) }
    ensures { result ≡ event_of (drop (event_width * i) (drop journal_at numbers.now)) }
{
    let e = event_at(numbers, i);
    Event {
        number: e.number,
        clock: e.clock,
        subscriber: e.subscriber,
        order_type: e.order_type,
        order: e.order,
        high: e.high,
        low: e.low,
        kind: kind_of(e.kind),
    }
}

// The journal's row of an image's numbers.
pub fn row_from(numbers: &[u64]) -> [Event; RECORD_COUNT]
    requires { length numbers.now ≡ number_count }
    ensures { result ≡ row_from numbers.now }
{
    let none = Event {
        number: 0,
        clock: 0,
        subscriber: 0,
        order_type: 0,
        order: 0,
        high: 0,
        low: 0,
        kind: Kind::Unused,
    };
    let mut row = [none; RECORD_COUNT];
    for i in 0..RECORD_COUNT {
        row[i] = event_from(numbers, i);
    }
    row
}
