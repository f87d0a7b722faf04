// The whole number nearest to a float, ties to even; no code.
#![tactic(auto)]
