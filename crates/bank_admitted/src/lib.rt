// What a session may hold, and that every call keeps it: definitions and proofs alone.
#![tactic(auto)]
