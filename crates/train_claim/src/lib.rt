// Demand 3 of document 01, as one claim over the calls of the train; no code.
#![tactic(auto)]
