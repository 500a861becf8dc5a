// An order over lines that lose, double and hold, computed. Proof; no code.
#![tactic(auto)]
