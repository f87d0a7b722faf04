// How near sin and cos are to the exact sine and cosine of the folded angle. No code.
#![tactic(auto)]
