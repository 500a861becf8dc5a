// The clock of the bank in lent rows: the time of a call, what it drops and forgets, and how many it drops.
#![tactic(auto)]

pub mod clock;
pub mod idle;
