// Where every opening ended: seven counts, and how a call moves them by its verdict, drops and receipts.
#![tactic(auto)]

pub mod moves;
pub mod seven;
