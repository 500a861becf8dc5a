// The bank's own numbers of document 01. Each has the same name in specs/Limits.antt.

// Order places, and mailboxes.
pub const PLACE_COUNT: usize = 8;

// The bytes of a store: all places, or all mailboxes.
pub const STORE_BYTES: usize = 63488;

// The lent bytes of a transaction ID, and the least reply buffer.
pub const ID_BYTES: usize = 8;

pub const REPLY_ROOM: usize = 312;

// Milliseconds that a transaction stays open behind its last fitting request.
pub const IDLE_LIMIT: u64 = 3600000;

// Milliseconds that a timestamp in time differs from the clock at most.
pub const WINDOW: u64 = 300000;

// Open transactions in all, and of one subscriber.
pub const MAX_OPEN: usize = 8;

pub const MAX_OPEN_PER_SUBSCRIBER: usize = 4;

// Remembered nonces.
pub const NONCE_COUNT: usize = 64;

// Open transactions that four banks share (document 02, card 13); those that each is sure of; what three idle ones count.
pub const SHARED_OPEN: u64 = 16;

pub const SURE_OPEN: u64 = 2;

pub const IDLE_OTHERS: u64 = 6;

// Accepted openings: the running numbers 0 to 4,294,967,295.
pub const MAX_OPENINGS: u64 = 4294967296;

// Accepted uploads of one series: the order numbers A000 to ZZZZ.
pub const SERIES_LIMIT: u64 = 1213056;

// The set of all eight subscribers as signers, the largest one: a bit for each.
pub const ALL_SIGNERS: u64 = 255;
