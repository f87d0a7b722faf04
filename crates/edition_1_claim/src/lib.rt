// The claim on the edition 1 sheet that is written from an edition 2 sheet (document 02, slip 6): it runs as the old one does. There is no code here.
#![tactic(auto)]
