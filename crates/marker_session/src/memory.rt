// The memory that a session lends to the bank, but for the buffer of a reply: that is an array of its own, since the
// compiler then sees that nobody reads the replies, and leaves their bytes out.
use bank_rows::layout::STATE_SIZE;
use bank_state::limits::STORE_BYTES;

// The bank's rows, the places' store and the mailboxes'.
#[derive(Drop)]
pub(crate) struct Memory {
    pub rows: [u64; STATE_SIZE],
    pub orders: [u8; STORE_BYTES],
    pub mailboxes: [u8; STORE_BYTES],
}
