// The range of each value of the transfer-matrix solver, for surfaces within document 01's limits.
// Definitions in specs/, theorems in proofs/; there is no code.
#![tactic(auto)]
