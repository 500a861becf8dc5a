// Which number stands where, as groups of records: a session's numbers in the image's order, and back.
ghost use Rattle.std.specs.Prelude.{◌≡◌};
ghost use Rattle.image_numbers.specs.Table.{group_at};

use bank_state::limits::{NONCE_COUNT, PLACE_COUNT};

// Some records: where the first one's numbers begin, and how far one record is from the next; how many of a record's
// numbers are taken and which, as hexadecimal digits, the first number's last (and no slice: `group_at` tells the group
// as a value, which one with a reference in it is not); how many records.
#[derive(Clone, Copy)]
pub struct Group {
    pub at: usize,
    pub width: usize,
    pub size: usize,
    pub parts: u64,
    pub records: usize,
}

// The groups of `session_groups`, by which the image's numbers are gathered, and after them those of `image_groups`, by
// which they are scattered.
const GROUPS: [Group; ALL_GROUPS] = [
    Group {
        at: bank_rows::layout::CLOCK_AT,
        width: 1,
        size: 1,
        parts: 0x0,
        records: 1,
    },
    Group {
        at: bank_rows::layout::OPENINGS_AT,
        width: 1,
        size: 1,
        parts: 0x0,
        records: 1,
    },
    Group {
        at: bank_rows::layout::SERIES_AT,
        width: 1,
        size: 1,
        parts: 0x0,
        records: PLACE_COUNT,
    },
    Group {
        at: bank_session::layout::EVENTS_AT,
        width: 1,
        size: 1,
        parts: 0x0,
        records: 1,
    },
    Group {
        at: bank_rows::layout::NONCE_COUNT_AT,
        width: 1,
        size: 1,
        parts: 0x0,
        records: 1,
    },
    Group {
        at: bank_rows::layout::NONCES_AT,
        width: bank_rows::layout::NONCE_WIDTH,
        size: 3,
        parts: 0x210,
        records: NONCE_COUNT,
    },
    Group {
        at: bank_rows::layout::DOWNLOAD_COUNT_AT,
        width: 1,
        size: 1,
        parts: 0x0,
        records: 1,
    },
    Group {
        at: bank_rows::layout::DOWNLOADS_AT,
        width: bank_rows::layout::DOWNLOAD_WIDTH,
        size: 6,
        parts: 0x543102,
        records: PLACE_COUNT,
    },
    Group {
        at: bank_rows::layout::PLACES_AT,
        width: bank_rows::layout::PLACE_WIDTH,
        size: 11,
        parts: 0xa9876542130,
        records: PLACE_COUNT,
    },
    Group {
        at: bank_rows::layout::FILES_AT,
        width: 1,
        size: 1,
        parts: 0x0,
        records: PLACE_COUNT,
    },
    Group {
        at: image_records::layout::CLOCK,
        width: 1,
        size: 1,
        parts: 0x0,
        records: 1,
    },
    Group {
        at: image_records::layout::OPENINGS,
        width: 1,
        size: 1,
        parts: 0x0,
        records: 1,
    },
    Group {
        at: image_records::layout::FILES,
        width: 1,
        size: 1,
        parts: 0x0,
        records: PLACE_COUNT,
    },
    Group {
        at: image_records::layout::SERIES,
        width: 1,
        size: 1,
        parts: 0x0,
        records: PLACE_COUNT,
    },
    Group {
        at: image_records::layout::DOWNLOAD_COUNT_AT,
        width: 1,
        size: 1,
        parts: 0x0,
        records: 1,
    },
    Group {
        at: image_records::layout::NONCE_COUNT_AT,
        width: 1,
        size: 1,
        parts: 0x0,
        records: 1,
    },
    Group {
        at: image_records::layout::PLACES,
        width: image_records::layout::PLACE_WIDTH,
        size: 11,
        parts: 0xa9876541320,
        records: PLACE_COUNT,
    },
    Group {
        at: image_records::layout::DOWNLOADS,
        width: image_records::layout::DOWNLOAD_WIDTH,
        size: 6,
        parts: 0x543021,
        records: PLACE_COUNT,
    },
    Group {
        at: image_records::layout::NONCES,
        width: image_records::layout::NONCE_WIDTH,
        size: 3,
        parts: 0x210,
        records: NONCE_COUNT,
    },
    Group {
        at: image_records::layout::EVENTS,
        width: 1,
        size: 1,
        parts: 0x0,
        records: 1,
    },
];

// Where the groups of `image_groups` begin, and where they end.
pub const SESSION_GROUPS: usize = 10;

pub const ALL_GROUPS: usize = 20;

// The group at a row; none behind the last.
pub fn group_at(i: usize) -> Group
    ensures { result ≡ group_at i }
{
    if i < ALL_GROUPS {
        GROUPS[i]
    } else {
        Group {
            at: 0,
            width: 0,
            size: 0,
            parts: 0,
            records: 0,
        }
    }
}
