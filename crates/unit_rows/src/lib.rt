// The unit's client runs, the journal's row and the lines as numbers and bytes in lent memory.
#![tactic(auto)]

mod codes;
pub mod events;
pub mod lines;
pub mod runs;
pub mod whole;
