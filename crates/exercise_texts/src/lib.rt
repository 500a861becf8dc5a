// The texts of the exercises: the script that is played, the record of a move, what a line can say, and the line of a
// move.
#![tactic(auto)]

pub mod lines;
pub mod record;
pub mod say;
pub mod script;
