// Two laws of Jones matrices: the order of two diagonal ones, and the identity; no code.
#![tactic(auto)]
