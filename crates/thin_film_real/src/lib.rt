// Complex numbers that are real, or imaginary, up to a zero's sign: what is kept of them by the solver's operations. No code.
#![tactic(auto)]
