// Exercise B over lines: what becomes of a message that is put into a line, and which move comes next.
#![tactic(auto)]

pub mod course;
mod fates;
