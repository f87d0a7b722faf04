// Sums, differences and products of whole numbers as f64, exact below 2^53; no code.
#![tactic(auto)]
