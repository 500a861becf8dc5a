// A request's step: what a request, read, does to the bank's rows and stores.
#![tactic(auto)]

pub mod mailboxes;
pub mod steps;
