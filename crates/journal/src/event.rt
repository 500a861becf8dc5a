// An event of an upload, the events of one call, and what the journal says of an upload.

// The records of the row.
pub const RECORD_COUNT: usize = 64;

// The most events of one call: the uploads of all eight places dropped, and one other event.
pub const MAX_ENTRIES: usize = 9;

// What happened to an upload: document 02's "opened, booked, cancelled, dropped", and card 8's "signed" of a booked
// order. A record not in use is unused.
#[derive(Clone, Copy)]
pub enum Kind {
    Unused,
    Opened,
    Booked,
    Cancelled,
    Dropped,
    Signed,
}

// A record of the row, document 02's "event number (8 bytes, from 1), clock, subscriber, order number, and kind"; "the
// journal gains the type", the three bytes of field 04 as a number, and "gains that ID", the transaction ID in two halves.
// The order number counts from A000, which is 0.
#[derive(Clone, Copy)]
pub struct Event {
    pub number: u64,
    pub clock: u64,
    pub subscriber: u64,
    pub order_type: u64,
    pub order: u64,
    pub high: u64,
    pub low: u64,
    pub kind: Kind,
}

// An event before it has its number and clock.
#[derive(Clone, Copy)]
pub struct Entry {
    pub subscriber: u64,
    pub order_type: u64,
    pub order: u64,
    pub high: u64,
    pub low: u64,
    pub kind: Kind,
}

// The events of one call, oldest first: as many of the entries as `count` says.
#[derive(Clone, Copy)]
pub struct Batch {
    pub count: u64,
    pub entries: [Entry; MAX_ENTRIES],
}

// What names an order: document 02's "subscriber, type and number together", the number as field 0E has it.
#[derive(Clone, Copy)]
pub struct OrderName {
    pub subscriber: u64,
    pub order_type: u64,
    pub number: u64,
}

// What the journal says of an upload: nothing, that it was cancelled or dropped, or that it was booked.
#[derive(Clone, Copy)]
pub enum Found {
    Nothing,
    Ended,
    Booked,
}
