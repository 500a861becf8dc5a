// Openings: how they are judged, and what an accepted one leaves.
#![tactic(auto)]

pub mod judgement;
pub mod openings;
mod own_numbers;
