// How much a line holds, and where its numbers stand in the row. Each has the same name in specs/.

// "A line holds up to 8 messages of at most 1,024 bytes".
pub const MOST_HELD: usize = 8;

pub const MESSAGE_BYTES: usize = 1024;

// The generator's value.
pub const VALUE_AT: usize = 0;

// How many messages are held.
pub(crate) const COUNT_AT: usize = 1;

// Their lengths, oldest first, and 0 after them.
pub(crate) const LENGTHS_AT: usize = 2;

// The numbers of a line.
pub const ROW_SIZE: usize = LENGTHS_AT + MOST_HELD;

// The bytes of a line's store, at whose front the held messages stand one after another, oldest first.
pub const STORE_BYTES: usize = MOST_HELD * MESSAGE_BYTES;
