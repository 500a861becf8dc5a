// Card 9, a lossy line from a seed: its generator, what a value decides, the lent memory, and the two calls.
#![tactic(auto)]

pub mod calls;
pub mod decision;
pub mod generator;
pub mod layout;
mod memory;
