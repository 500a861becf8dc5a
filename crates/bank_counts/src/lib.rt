// Where every accepted opening ended: seven counts by requests, replies and clocks alone, and how each call moves them.
// Definitions and theorems; no code.
#![tactic(auto)]
