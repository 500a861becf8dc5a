// Putting a session away into a lent buffer, and taking it up again.
#![tactic(auto)]

pub mod calls;
pub mod held;
pub mod told;
