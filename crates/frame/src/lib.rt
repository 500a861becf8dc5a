// The laws that frame reader and frame writer have together. Proof; no code.
#![tactic(auto)]
