// What the children of an accepted component are served, over the definitions of the crates below; no code.
#![tactic(auto)]
