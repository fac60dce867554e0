// What follows from the calls' promises, in specs/: a batch fed in pieces, and document 01's examples. There is no code here.
#![tactic(auto)]
