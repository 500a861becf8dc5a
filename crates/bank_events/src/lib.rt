// The events that a frame call enters into the journal.
#![tactic(auto)]

pub mod actions;
pub mod drops;
