// What it means that two floats, complex numbers, Stokes vectors or matrices are equal in value; no code.
#![tactic(auto)]
