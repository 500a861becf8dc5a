// The driver's session: calls to one bank and to 16 client runs in, a line for each out.
#![tactic(auto)]

pub mod session;
