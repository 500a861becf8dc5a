// The list of conditions is what a session may hold, so every call keeps it: definitions and proofs alone.
#![tactic(auto)]
