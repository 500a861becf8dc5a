// Reading a frame: one reader over the tables.
#![tactic(auto)]

pub mod reader;
