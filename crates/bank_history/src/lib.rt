// What holds of the bank after any calls from a fresh start, over the history of requests and replies. Definitions
// and theorems; no code.
#![tactic(auto)]
