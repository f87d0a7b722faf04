// How near an admitted sheet's numbers are to exact optics. No code.
#![tactic(auto)]
