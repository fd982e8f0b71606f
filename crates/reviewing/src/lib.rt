// No code: what the calls that explain a finding have to be trusted for stands in specs, and is proved in proofs.

#![tactic(auto)]
