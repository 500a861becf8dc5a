// Demand 3 of document 01: one theorem over every list of calls to the bank and to client runs. Definitions and
// proof; no code.
#![tactic(auto)]
