// Signings: the booked order that one names, how it is judged, and what an accepted one leaves.
#![tactic(auto)]

pub mod judgement;
pub mod orders;
pub mod signing;
