// What the calls have to be trusted for, as theorems: only definitions and proofs, and nothing that runs.

#![tactic(auto)]
