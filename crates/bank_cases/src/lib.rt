// The refusals of a frame in their order and at their limits, and the host's numbers: one table. Proof; no code.
#![tactic(auto)]
