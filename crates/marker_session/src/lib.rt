// The marker: recorded calls in, the marker's print out.
#![tactic(auto)]

pub mod line;
pub mod mark;
mod memory;
pub mod record;
pub mod session;
