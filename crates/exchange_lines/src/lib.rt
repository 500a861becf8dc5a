// Card 9 of demand 3: a list of calls whose messages go over lines keeps its premises on requests and replies. Definitions
// and proof; no code.
#![tactic(auto)]
