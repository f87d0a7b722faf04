// What a sheet's surface without layers gives back and lets through head-on. No code.
#![tactic(auto)]
