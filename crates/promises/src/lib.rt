// The theorems of the demands, over the definitions of the crates below; no code.
#![tactic(auto)]
