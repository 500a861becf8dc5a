// The driver's print: the line of a call, and the closing tables.
#![tactic(auto)]

pub mod call_line;
pub mod counts_table;
mod digest;
pub mod tables;
