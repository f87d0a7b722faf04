// How near the powers that a bare surface reflects are to the exact ones of the exact angle. No code.
#![tactic(auto)]
