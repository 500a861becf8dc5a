// The unit's lines over every list of records, as the definitions say; proofs alone.
#![tactic(auto)]
