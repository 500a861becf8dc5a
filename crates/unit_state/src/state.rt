// The unit's client runs, with what each keeps between its calls, and the journal's row. The bank's numbers are lent.
use crate::record::RUN_COUNT;
use client::calls::Client;
use client_run::run::NONCE_BYTES;
use journal::event::{Event, RECORD_COUNT};
use line::layout::MESSAGE_BYTES;
use message::limits::FILE_BYTES;

// The bytes of all runs' payload rooms, and of all their file buffers.
pub const ROOMS_BYTES: usize = RUN_COUNT * FILE_BYTES;

// The bytes of the buffer for a call's reply or request, or for a held message, the longest of the three.
pub const BUFFER_BYTES: usize = MESSAGE_BYTES;

// A client run, the nonce bytes that it keeps, and how many bytes its payload has.
#[derive(Clone, Copy)]
pub struct Run {
    pub client: Client,
    pub nonce: [u8; NONCE_BYTES],
    pub payload: u64,
}

// The client runs, and the journal as the bank last left it.
#[derive(Clone, Copy)]
pub struct UnitState {
    pub runs: [Run; RUN_COUNT],
    pub journal: [Event; RECORD_COUNT],
}
