// The bank end: a frame arrives, and a file goes into a mailbox. A fresh bank is bank_state's `fresh`.
#![tactic(auto)]

pub mod call;
pub mod mailbox;
