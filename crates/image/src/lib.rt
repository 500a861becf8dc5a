// The image of a session: its numbers and its two stores as tagged fields, written and read by one table.
#![tactic(auto)]

pub mod codec;
pub mod numbers;
pub mod table;
pub mod walk;
