// The bank's state, its lent stores, its searches, and the clock with all that it drops.
#![tactic(auto)]

pub mod clock;
pub mod limits;
pub mod search;
pub mod state;
pub mod store;
