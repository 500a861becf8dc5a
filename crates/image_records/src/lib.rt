// The records of a session as an image holds them, and the conditions of one record.
#![tactic(auto)]

pub mod layout;
pub mod records;
pub mod tests;
