// Demand 1, as one claim over the calls that can refuse; no code.
#![tactic(auto)]
