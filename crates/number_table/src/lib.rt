// The numbers that a call is given where it is refused without a frame.
#![tactic(auto)]

pub mod table;
