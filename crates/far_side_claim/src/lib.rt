// Slip 4 of document 02, as one claim over the calls that take layers; no code.
#![tactic(auto)]
