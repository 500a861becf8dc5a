// The third column of the marker: the offset of an opening.
#![tactic(auto)]

pub mod offset;
