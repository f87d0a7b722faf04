// IEEE 754's square root as a definition, with its laws: the root is the nearest f64, and how it keeps ranges.
// Definitions in specs/, theorems in proofs/; the crate sqrt has the code.
