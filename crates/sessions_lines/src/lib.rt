// Sessions of the unit whose messages go over lines: their records copy requests and replies, as demand 3 asks.
// Definitions and proof; no code.
#![tactic(auto)]
