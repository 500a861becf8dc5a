// What the programs print, written into a lent output: numbers and texts, a day, an order's name, closing words,
// the book, the seven counts.
#![tactic(auto)]

pub mod book;
pub mod closing;
pub mod day;
pub mod name;
pub mod seven;
pub mod text;
