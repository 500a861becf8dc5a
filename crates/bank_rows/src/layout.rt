// Where the numbers of the bank's state stand in the rows. Each has the same name in specs/Layout.antt.
use bank_state::limits::{NONCE_COUNT, PLACE_COUNT};

pub const CLOCK_AT: usize = 0;

// The openings accepted.
pub const OPENINGS_AT: usize = CLOCK_AT + 1;

// The lengths of the files in the mailboxes.
pub const FILES_AT: usize = OPENINGS_AT + 1;

// How far the numbering of each subscriber's uploads has come.
pub const SERIES_AT: usize = FILES_AT + PLACE_COUNT;

// How many downloads are open, and how many nonces are remembered.
pub const DOWNLOAD_COUNT_AT: usize = SERIES_AT + PLACE_COUNT;

pub const NONCE_COUNT_AT: usize = DOWNLOAD_COUNT_AT + 1;

// The numbers of an order place.
pub const PLACES_AT: usize = NONCE_COUNT_AT + 1;

pub const PLACE_USE: usize = 0;

pub const PLACE_HIGH: usize = 1;

pub const PLACE_LOW: usize = 2;

pub const PLACE_SUBSCRIBER: usize = 3;

pub const PLACE_NUMBER: usize = 4;

pub const PLACE_SEGMENTS: usize = 5;

pub const PLACE_TAKEN: usize = 6;

pub const PLACE_ATTEMPTS: usize = 7;

pub const PLACE_LAST: usize = 8;

pub const PLACE_LENGTH: usize = 9;

pub const PLACE_SIGNERS: usize = 10;

pub const PLACE_WIDTH: usize = 11;

pub const PLACES_SIZE: usize = PLACE_WIDTH * PLACE_COUNT;

// The numbers of an open download.
pub const DOWNLOADS_AT: usize = PLACES_AT + PLACES_SIZE;

pub const DOWNLOAD_HIGH: usize = 0;

pub const DOWNLOAD_LOW: usize = 1;

pub const DOWNLOAD_SUBSCRIBER: usize = 2;

pub const DOWNLOAD_DELIVERED: usize = 3;

pub const DOWNLOAD_ATTEMPTS: usize = 4;

pub const DOWNLOAD_LAST: usize = 5;

pub const DOWNLOAD_WIDTH: usize = 6;

pub const DOWNLOADS_SIZE: usize = DOWNLOAD_WIDTH * PLACE_COUNT;

// The numbers of a remembered nonce.
pub const NONCES_AT: usize = DOWNLOADS_AT + DOWNLOADS_SIZE;

pub const NONCE_HIGH: usize = 0;

pub const NONCE_LOW: usize = 1;

pub const NONCE_TIMESTAMP: usize = 2;

pub const NONCE_WIDTH: usize = 3;

pub const NONCES_SIZE: usize = NONCE_WIDTH * NONCE_COUNT;

// All numbers of the state.
pub const STATE_SIZE: usize = NONCES_AT + NONCES_SIZE;
