// The journal: the bank's events in a lent row of records, entered and looked up.
#![tactic(auto)]

pub mod event;
pub mod places;
pub mod row;
