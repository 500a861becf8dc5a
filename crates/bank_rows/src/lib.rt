// The bank's state in lent rows of numbers: their layout, the numbers before the rows, and the order places.
#![tactic(auto)]

pub mod layout;
pub mod numbers;
pub mod places;
pub mod rows;
