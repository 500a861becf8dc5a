// A session's numbers in the order of its image.
#![tactic(auto)]

pub mod events;
pub mod moving;
pub mod numbers;
pub mod table;
