// No code: what the samplers' rules answer in the rows of document 01's table that are marked P.
#![tactic(auto)]
