// What the unit's calls go by: the records, the client runs with the journal, and what a call answers.
#![tactic(auto)]

pub mod answer;
pub mod record;
pub mod state;
