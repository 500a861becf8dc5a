// Bytes: numbers of them, parts of them, and copies in lent memory.
#![tactic(auto)]

pub mod bytes;
