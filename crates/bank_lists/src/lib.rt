// The lists in the bank's rows: the open downloads and the remembered nonces; and the open transactions counted.
#![tactic(auto)]

pub mod counts;
pub mod downloads;
pub mod nonces;
pub mod rows;
