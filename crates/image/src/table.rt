// The table of an image's fields, and its sizes.
ghost use Rattle.std.specs.Prelude.{◌≡◌};
ghost use Rattle.image.specs.Table.{row_at};
ghost use Rattle.image.specs.Items.{image_sizes};

use bank_state::limits::STORE_BYTES;

// A field: its head as a number of so many bytes (tag and length; for the form's number the content too), which is the
// same in every image; how many records it has, how many parts a record has besides the first, and their
// lengths as hexadecimal digits, the first part's last; or the size of its store; how many bytes stand behind the head.
// Plain numbers, 0 where a field has none of it, since `image_fields` in specs/ lists rows of this shape.
#[derive(Clone, Copy)]
pub struct Row {
    pub width: usize,
    pub head: u64,
    pub records: u64,
    pub more: u64,
    pub widths: u64,
    pub store: usize,
    pub bytes: usize,
}

// How many fields an image has.
pub const FIELD_COUNT: usize = 15;

// The form's number.
const FORM: Row = Row {
    width: 4,
    head: 0x01_0001_0c,
    records: 0,
    more: 0,
    widths: 0,
    store: 0,
    bytes: 0,
};

// The fields of numbers.
const CLOCK: Row = Row {
    width: 3,
    head: 0x02_0008,
    records: 1,
    more: 0,
    widths: 0x8,
    store: 0,
    bytes: 8,
};

const OPENINGS: Row = Row {
    width: 3,
    head: 0x03_0008,
    records: 1,
    more: 0,
    widths: 0x8,
    store: 0,
    bytes: 8,
};

const SERIES: Row = Row {
    width: 3,
    head: 0x04_0020,
    records: 8,
    more: 0,
    widths: 0x4,
    store: 0,
    bytes: 32,
};

const EVENTS: Row = Row {
    width: 3,
    head: 0x05_0008,
    records: 1,
    more: 0,
    widths: 0x8,
    store: 0,
    bytes: 8,
};

const NONCES_USED: Row = Row {
    width: 3,
    head: 0x06_0001,
    records: 1,
    more: 0,
    widths: 0x1,
    store: 0,
    bytes: 1,
};

const NONCES: Row = Row {
    width: 3,
    head: 0x07_0600,
    records: 64,
    more: 2,
    widths: 0x888,
    store: 0,
    bytes: 1536,
};

const DOWNLOADS_OPEN: Row = Row {
    width: 3,
    head: 0x08_0001,
    records: 1,
    more: 0,
    widths: 0x1,
    store: 0,
    bytes: 1,
};

const DOWNLOADS: Row = Row {
    width: 3,
    head: 0x09_00e8,
    records: 8,
    more: 5,
    widths: 0x812882,
    store: 0,
    bytes: 232,
};

const PLACES: Row = Row {
    width: 3,
    head: 0x0a_0138,
    records: 8,
    more: 10,
    widths: 0x12812248821,
    store: 0,
    bytes: 312,
};

const FILES: Row = Row {
    width: 3,
    head: 0x0b_0010,
    records: 8,
    more: 0,
    widths: 0x2,
    store: 0,
    bytes: 16,
};

const JOURNAL: Row = Row {
    width: 3,
    head: 0x0c_0a80,
    records: 64,
    more: 7,
    widths: 0x18843288,
    store: 0,
    bytes: 2688,
};

// The stores.
const ORDERS: Row = Row {
    width: 3,
    head: 0x0d_f800,
    records: 0,
    more: 0,
    widths: 0,
    store: STORE_BYTES,
    bytes: STORE_BYTES,
};

const MAILBOXES: Row = Row {
    width: 3,
    head: 0x0e_f800,
    records: 0,
    more: 0,
    widths: 0,
    store: STORE_BYTES,
    bytes: STORE_BYTES,
};

// The seven counts.
const COUNTS: Row = Row {
    width: 3,
    head: 0x0f_0038,
    records: 7,
    more: 0,
    widths: 0x8,
    store: 0,
    bytes: 56,
};

// Behind the last field.
const NO_ROW: Row = Row {
    width: 0,
    head: 0,
    records: 0,
    more: 0,
    widths: 0,
    store: 0,
    bytes: 0,
};

// The fields in the order of `image_fields`.
const ROWS: [Row; FIELD_COUNT] = [
    FORM,
    CLOCK,
    OPENINGS,
    SERIES,
    EVENTS,
    NONCES_USED,
    NONCES,
    DOWNLOADS_OPEN,
    DOWNLOADS,
    PLACES,
    FILES,
    JOURNAL,
    ORDERS,
    MAILBOXES,
    COUNTS,
];

// The field at a row; none behind the last.
pub fn row_at(i: usize) -> Row
    ensures { result ≡ row_at i }
{
    if i < FIELD_COUNT { ROWS[i] } else { NO_ROW }
}

// How many fields an image has and how many numbers a session; the sizes of a store and of the image; where the places'
// store and the mailboxes' begin in the image.
#[derive(Clone, Copy)]
pub struct Sizes {
    pub fields: u64,
    pub numbers: usize,
    pub store: usize,
    pub image: usize,
    pub orders: usize,
    pub mailboxes: usize,
}

pub fn image_sizes() -> Sizes
    ensures { result ≡ image_sizes }
{
    Sizes {
        fields: FIELD_COUNT as u64,
        numbers: 868,
        store: STORE_BYTES,
        image: 131920,
        orders: 4882,
        mailboxes: 68373,
    }
}
