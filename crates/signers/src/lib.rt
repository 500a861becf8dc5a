// The signers of an order: a set over the 8 subscribers, as bits of a u8.
#![tactic(auto)]

pub mod set;
