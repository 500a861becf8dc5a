// A client run: its record, the next run, and the request that it has outstanding.
#![tactic(auto)]

pub mod next_run;
pub mod requests;
pub mod run;
