// The driver's records as calls of demand 3: what the unit is and answers after them. Definitions and proof; no code.
#![tactic(auto)]
