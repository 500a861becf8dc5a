// What the bank decides of a request: its verdicts, and the reply that each gives.
#![tactic(auto)]

pub mod replies;
pub mod verdict;
