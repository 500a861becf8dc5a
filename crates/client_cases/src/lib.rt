// The numbers of the client's owner, what fits each step of a run, and the closing words: one table. Proof; no code.
#![tactic(auto)]
