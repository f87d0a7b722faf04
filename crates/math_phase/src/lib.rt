// How near the angle that the first line of sin and cos leaves is to x less whole turns of 2π. No code.
#![tactic(auto)]
