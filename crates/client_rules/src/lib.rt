// The client's rules: which call is given which number, and what each event leads to.
#![tactic(auto)]

pub mod decisions;
pub mod rulings;
