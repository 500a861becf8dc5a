// Computed lists of calls to which demand 3 applies, as it does to every list that meets its premises. Proof; no code.
#![tactic(auto)]
