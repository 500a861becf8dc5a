// The unit: one bank, its stores, 16 client runs with their buffers, the image room, 32 lines, and one call of a record on
// them.
#![tactic(auto)]

pub mod call;
mod images;
mod lines;
