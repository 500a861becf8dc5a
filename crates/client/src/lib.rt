// The client end: a run of one upload or one download, handed in and handed back at each call.
#![tactic(auto)]

pub mod calls;
pub mod journal_call;
