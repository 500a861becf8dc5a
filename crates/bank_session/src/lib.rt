// The host's calls on a session: the bank, both stores, the journal and the counts. A fresh session is all zeros.
#![tactic(auto)]

pub mod calls;
pub mod counted;
pub mod layout;
pub mod numbers;
pub mod report;
