// What the tables of cases have in common: a row, a table that holds, and what the calls compute with. No code.
#![tactic(auto)]
