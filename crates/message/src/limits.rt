// The numbers of document 01 that the bank and the client share. Each has the same name in specs/Limits.antt.

// The bytes of a segment but the last.
pub const SEGMENT_BYTES: usize = 256;

// The same as a count of a file's bytes: segment_bytes too.
pub const SEGMENT_SIZE: u64 = SEGMENT_BYTES as u64;

// The most segments of an order.
pub const MAX_SEGMENTS: u64 = 31;

// The bytes of an order place, a mailbox, a payload and a file buffer at most: all segments.
pub const FILE_BYTES: usize = 7936;

// The recovery attempts that are answered; the next one ends the transaction or the run.
pub const MAX_ATTEMPTS: u64 = 5;

// Subscribers and mailboxes are numbered from 1 to this.
pub const SUBSCRIBERS: u64 = 8;

// The order types: FUL uploads, FDL downloads; three characters, high byte first.
pub const FUL: u64 = 0x46_55_4C;

pub const FDL: u64 = 0x46_44_4C;

// The phases of a transaction.
pub const INITIALISATION_PHASE: u64 = 1;

pub const TRANSFER_PHASE: u64 = 2;

pub const RECEIPT_PHASE: u64 = 3;
