// The one test of the bank's rows.
#![tactic(auto)]

pub mod sound;
