// Writing a frame: one writer over the tables.
#![tactic(auto)]

pub mod writer;
