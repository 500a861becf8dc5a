// The conditions of a session: what its numbers and stores may be, to be written as an image or taken up from one.
#![tactic(auto)]

pub mod conditions;
pub mod tables;
