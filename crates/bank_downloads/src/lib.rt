// What each step of one download does: judged by document 01's refusals, then carried out on that transaction alone.
#![tactic(auto)]

pub mod downloads;
